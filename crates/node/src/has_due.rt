// Whether a node has a due frame, which is not made for it (A.8).
ghost use Rattle.std.specs.Prelude.{◌≡◌};
ghost use Rattle.node.specs.Rules.{first_waiting, due_of, is_due, wait};

use crate::Node;
use state::Phase;

impl Node {
    // Of a Permitted node.
    #[tactic(auto, using(crate::proofs::Waits::waiting_due))]
    fn has_waiting(self) -> bool
        ensures { result ≡ is_due (first_waiting self) }
    {
        let waiting = self.waiting;
        waiting.reply
            || waiting.amd
            || waiting.report
            || waiting.error.is_some()
            || waiting.host.is_some()
    }

    #[tactic(auto, unfolding(crate::specs::Rules::due_of))]
    pub fn has_due(self) -> bool
        ensures { result ≡ is_due (due_of wait self) }
    {
        match self.phase {
            Phase::Testing(..) => !self.phase.counts(),
            Phase::Reserved | Phase::Leaving(_) => true,
            Phase::Permitted => self.has_waiting(),
            Phase::Off | Phase::Resting | Phase::Silent => false,
        }
    }
}
