// The few ways in which a node changes, and the node before its first power-on.
ghost use Rattle.std.specs.Prelude.{◌≡◌};
ghost use Rattle.node.specs.Rules.{off_node, fresh, moved, counted, waits, linked, restart};

use crate::{Generator, Node, Own};
use headers::alias::{self, Alias};
use state::{Link, Phase, Waiting};

impl Node {
    // The node before its first power-on.
    #[tactic(auto, unfolding(crate::specs::Rules::off_node))]
    pub fn off() -> Node
        ensures { result ≡ off_node }
    {
        Node {
            own: Own {
                id: 0,
                link: Link::ErrorActive,
            },
            alias: Alias(0),
            generator: Generator {
                state: 0,
                past: false,
            },
            phase: Phase::Off,
            waiting: Waiting::none(),
        }
    }

    // The node at power-on, cold or warm.
    #[tactic(auto, unfolding(crate::specs::Rules::fresh))]
    pub(crate) fn fresh(id: u64, alias: Alias, generator: Generator) -> Node
        ensures { result ≡ fresh id alias generator }
    {
        Node {
            own: Own {
                id,
                link: Link::ErrorActive,
            },
            alias,
            generator,
            phase: Phase::Testing(0, 0),
            waiting: Waiting::none(),
        }
    }

    // In another state, nothing waiting.
    #[tactic(auto, unfolding(crate::specs::Rules::moved))]
    pub(crate) fn moved(self, phase: Phase) -> Node
        ensures { result ≡ moved self phase }
    {
        Node {
            phase,
            waiting: Waiting::none(),
            ..self
        }
    }

    // With another count of CIDs and ticks, in the same state.
    #[tactic(auto, unfolding(crate::specs::Rules::counted))]
    pub(crate) fn counted(self, phase: Phase) -> Node
        ensures { result ≡ counted self phase }
    {
        Node { phase, ..self }
    }

    // With something else waiting.
    #[tactic(auto, unfolding(crate::specs::Rules::waits))]
    pub(crate) fn waits(self, waiting: Waiting) -> Node
        ensures { result ≡ waits self waiting }
    {
        Node { waiting, ..self }
    }

    // With another link state.
    #[tactic(auto, unfolding(crate::specs::Rules::linked))]
    pub(crate) fn linked(self, link: Link) -> Node
        ensures { result ≡ linked self link }
    {
        Node {
            own: Own { link, ..self.own },
            ..self
        }
    }

    // Testing the next alias.
    #[tactic(auto, unfolding(crate::specs::Rules::restart))]
    pub(crate) fn restarted(self) -> Node
        ensures { result ≡ restart self }
    {
        let state = alias::step_from(self.generator.state);
        Node {
            alias: alias::drawn_from(state),
            generator: Generator { state, past: true },
            phase: Phase::Testing(0, 0),
            waiting: Waiting::none(),
            ..self
        }
    }
}
