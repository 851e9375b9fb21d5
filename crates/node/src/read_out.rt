// Read-out (A.9): what a later warm power-on can be given.
ghost use Rattle.std.specs.Prelude.{◌≡◌};
ghost use Rattle.node.specs.Rules.{read_out_of};
ghost use Rattle.node.specs.Answers.{read_out_as};

use crate::{Generator, Node};
use headers::refusal::Refusal;

impl Node {
    #[tactic(auto, unfolding(crate::specs::Rules::read_out_of))]
    pub fn read_out(self) -> Result<Generator, Refusal>
        ensures { read_out_as result ≡ read_out_of self }
    {
        if self.phase.is_off() {
            return Err(Refusal::Off);
        }
        Ok(self.generator)
    }
}
