// The places of the segment: the index of one, and several in order.
ghost use Rattle.std.specs.Prelude.{◌<◌, ◌≤◌};
ghost use Rattle.segment_rules.specs.Rules.{places};

use crate::layout::Table;
use headers::refusal::Refusal;

// A place of the segment, by its index.
#[derive(Clone, Copy, Debug, PartialEq, Eq)]
pub(crate) struct Place {
    pub index: usize,
    ghost inside: { index < places },
}

impl TryFrom<usize> for Place {
    type Error = Refusal;

    ghost use Rattle.table.specs.Places.{PlaceAt};

    ghost try_from_gives = { PlaceAt };

    fn try_from(index: usize) -> Result<Self, Refusal> {
        if index < Table::PLACES {
            Ok(Place { index })
        } else {
            Err(Refusal::BadIndex)
        }
    }
}

// The places from one index on, before another, in order.
#[derive(Drop)]
pub(crate) struct Places {
    next: usize,
    end: usize,
    ghost inside: { end ≤ places },
}

impl Places {
    ghost use Rattle.table.specs.Places.{Between};

    pub fn all() -> Places
        ensures { Between 0 places result }
    {
        Places {
            next: 0,
            end: Table::PLACES,
        }
    }

    // This place and those after it.
    pub fn starting_at(k: Place) -> Places
        ensures { Between k.index places result }
    {
        Places {
            next: k.index,
            end: Table::PLACES,
        }
    }

    pub fn before(k: Place) -> Places
        ensures { Between 0 k.index result }
    {
        Places {
            next: 0,
            end: k.index,
        }
    }
}

impl Iterator for Places {
    type Item = Place;

    ghost use Rattle.std.specs.Prelude.{◌-◌};
    ghost use Rattle.std.specs.Iterator.{at_most};
    ghost use Rattle.table.specs.Places.{Steps};

    ghost next_gives = { Steps };

    ghost remaining = { λ s. at_most (s.end - s.next) };

    fn next(&mut self) -> Option<Place> {
        if self.next < self.end {
            let k = Place { index: self.next };
            self.next += 1;
            Some(k)
        } else {
            None
        }
    }
}
