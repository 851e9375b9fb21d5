// What a phase says of a node.
ghost use Rattle.std.specs.Prelude.{◌≡◌};
ghost use Rattle.state.specs.Rules.{wait, is_off, is_permitted, timed_at};
ghost use Rattle.state.specs.Concerns.{counts};

use crate::{Phase, Timed};

impl Phase {
    // Ticks from the departure of CID 4 to the reserving RID.
    pub const WAIT: u8 = 201;

    pub fn is_off(self) -> bool
        ensures { result ≡ is_off self }
    {
        matches!(self, Phase::Off)
    }

    pub fn is_permitted(self) -> bool
        ensures { result ≡ is_permitted self }
    {
        matches!(self, Phase::Permitted)
    }

    // Whether a tick counts: in Testing, from the departure of CID 4 to the wait.
    pub fn counts(self) -> bool
        ensures { result ≡ counts wait self }
    {
        matches!(self, Phase::Testing(4.., ticks) if ticks < Phase::WAIT)
    }

    // Which frame with an age waits, by whether a reply RID does.
    pub fn timed(self, reply: bool) -> Option<Timed>
        ensures { result ≡ timed_at self reply }
    {
        match self {
            Phase::Reserved | Phase::Permitted if reply => Some(Timed::Reply),
            Phase::Leaving(_) => Some(Timed::Amr),
            _ => None,
        }
    }
}
