// A node's link state by its number, and the error report that a change of it makes wait.
ghost use Rattle.std.specs.Prelude.{◌≡◌, ◌<◌};
ghost use Rattle.state.specs.Rules.{link_of, error_on};

use crate::{Error, Link};

// Any number above 1 stands for Bus Off; an event refuses those above 2 before.
impl From<u8> for Link {
    ghost from_gives = { λ state link. link ≡ link_of state };

    fn from(state: u8) -> Link {
        match state {
            0 => Link::ErrorActive,
            1 => Link::ErrorPassive,
            _ => Link::BusOff,
        }
    }
}

impl Link {
    // The number that it comes back from. `From` would say nothing of the range, on which a packed word rests.
    pub fn number(self) -> u8
        ensures { (link_of result ≡ self) × (result < 3) }
    {
        self as u8
    }

    // The error report that waits at a Permitted node once its link has entered this state from that one, where `waiting` did.
    pub fn entered(self, from: Link, waiting: Option<Error>) -> Option<Error>
        ensures { result ≡ error_on self from waiting }
    {
        match (self, from) {
            (Link::ErrorPassive, Link::ErrorActive) => Some(Error::Report0),
            (Link::ErrorPassive, Link::BusOff) => Some(Error::Report1),
            (Link::ErrorActive, Link::ErrorPassive) => Some(Error::Report2),
            (Link::ErrorActive, Link::BusOff) => Some(Error::Report3),
            _ => waiting,
        }
    }
}
