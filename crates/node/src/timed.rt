// The frame with an age that waits at a node for an alias.
ghost use Rattle.std.specs.Prelude.{◌≡◌};
ghost use Rattle.node.specs.Rules.{timed_for};

use crate::Node;
use headers::alias::Alias;
use state::Timed;

impl Node {
    pub fn timed_for(self, alias: Alias) -> Option<Timed>
        ensures { result ≡ timed_for self alias.0 }
    {
        if self.alias == alias {
            return self.phase.timed(self.waiting.reply);
        }
        None
    }
}
