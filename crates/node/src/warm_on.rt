// Warm power-on (A.9): a node comes back under the alias that a generator state stands for.
ghost use Rattle.std.specs.Prelude.{◌≡◌};
ghost use Rattle.node.specs.Rules.{wait, order, warm_on, warm, outcome};
ghost use Rattle.node.specs.Answers.{outcome_as};

use crate::{Generator, Node};
use headers::alias::{drawn_from, first_alias};
use headers::refusal::Refusal;

impl Node {
    // The node that tests the alias of this generator state, without a step.
    fn warm(id: u64, state: u64) -> Node
        ensures { result ≡ warm id state }
    {
        let generator = Generator { state, past: true };
        Node::fresh(id, drawn_from(state), generator)
    }

    // In any state of the node. Flag 0 is a power-on, whatever generator state is given; flag 1 starts from that one. The flag stays
    // a number: C hands over any, and one above 1 is refused after the Node ID (18 after 3).
    #[tactic(auto, unfolding(crate::specs::Rules::on_warm_on))]
    pub fn warm_on(self, id: u64, flag: u8, state: u64) -> Result<Node, Refusal>
        ensures { outcome_as self result ≡ outcome wait self (order (warm_on id flag state)) }
    {
        let first = first_alias(id)?;
        match flag {
            0 => Ok(Node::cold(id, first)),
            1 if state <= 0xFFFF_FFFF_FFFF => Ok(Node::warm(id, state)),
            _ => Err(Refusal::BadStart),
        }
    }
}
