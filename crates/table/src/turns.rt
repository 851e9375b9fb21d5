// Turns on one controller (A.8): who sends next.
ghost use Rattle.std.specs.Prelude.{◌≡◌, ◌<◌};
ghost use Rattle.segment_rules.specs.Rules.{places, after, choice};
ghost use Rattle.table.specs.Places.{named};
ghost use Rattle.table.specs.Words.{view, Held};
ghost use Rattle.table.specs.Parts.{FirstIn};

use crate::layout::{Table, WORDS};
use crate::place::{Place, Places};
use crate::store;

// The place after an index, wrapping past 23.
fn after(k: u64) -> Place
    ensures { k < places → result.index ≡ after k }
{
    Place {
        index: if k < Table::LAST { k as usize + 1 } else { 0 },
    }
}

// The first of these places whose node has a due frame.
fn first_in(t: &[u64; WORDS], mut some: Places) -> Option<Place>
    ensures { FirstIn t.now some.next some.end result }
{
    some.find(|k| store::has_due_at(t, *k))
}

// The first place, after the one chosen last, whose node has a due frame. Each node is looked at once at most, the one chosen last
// as the last.
pub(crate) fn first_due(t: &[u64; WORDS]) -> Option<Place>
    ensures { Held t.now → named result ≡ choice (view t.now) }
{
    let next = after(store::mark(t));
    first_in(t, Places::starting_at(next)).or_else(|| first_in(t, Places::before(next)))
}
