// A script and a place in it that moves forward. The place is a number beside the script, as the clauses of `new` and `next` have
// it.
ghost use Rattle.std.specs.Prelude.{◌≡◌, ◌+◌, drop};
ghost use Rattle.script.specs.Rules.{read_of};
ghost use Rattle.script.specs.Answers.{read_as};
ghost use Rattle.script.specs.Scripts.{taken};

use crate::command::{Fault, Next, read_at};

#[derive(Clone, Copy, Debug, PartialEq, Eq)]
pub struct Reader<'a> {
    pub script: &'a [u8],
    pub at: usize,
}

impl<'a> Reader<'a> {
    // At the start of a script.
    pub fn new(script: &'a [u8]) -> Self
        ensures { (result.script ≡ script.entry) × (result.at ≡ 0) }
    {
        Reader { script, at: 0 }
    }

    // What stands at the reader's place, which moves on by the bytes of a command.
    pub fn next(&mut self) -> Result<Option<Next>, Fault>
        ensures { (read_as result ≡ read_of (drop self.old.at self.old.script.now)) × ((self.new.script ≡ self.old.script) × (self.new.at ≡ self.old.at + taken (read_as result))) }
    {
        let read = read_at(self.script, self.at)?;
        if let Some(next) = read {
            self.at += next.took;
        }
        Ok(read)
    }
}
