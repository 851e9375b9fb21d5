// Node IDs in use (A.6): whether one stands at another place than that of a power-on.
ghost use Rattle.std.specs.Prelude.{◌≡◌};
ghost use Rattle.segment_rules.specs.Rules.{places, some_other, has_id};
ghost use Rattle.table.specs.Words.{view};

use crate::layout::WORDS;
use crate::place::{Place, Places};
use crate::store;

// Whether a node at another place than `from` is not Off and has this Node ID.
pub(crate) fn is_in_use_but(t: &[u64; WORDS], from: Place, id: u64) -> bool
    ensures { result ≡ some_other (has_id id) from.index places (view t.now) }
{
    Places::all().any(|k| k != from && store::has_id_at(t, k, id))
}
