// Removing entries in place: those that stay move down, in their order.
ghost use Rattle.std.specs.Prelude.{◌≤◌};
ghost use Rattle.alias_map.specs.Rules.{room};
ghost use Rattle.alias_map.specs.Parts.{Tests, Removed};

use crate::entry::{Entry, entry_in};
use crate::layout::WORDS;

// Of n entries those go that are `gone`; the first such stands at place i. How many stay. Inlined, its loop takes up to twice as
// long where the caller's code happens to place it badly. `kept` is counted by hand: words that C lends are no vector with `retain`.
#[inline(never)]
pub(crate) fn remove<F: Fn(Entry) -> bool>(
    map: &mut [u64; WORDS],
    i: usize,
    n: usize,
    gone: F,
) -> usize
    requires call { F.IsAlwaysCallable gone }
    requires within { (i ≤ n) × (n ≤ room) }
    ensures most { result ≤ n }
    ensures rest { (p : _) → Tests F.Fn gone p → Removed p map.old i n result map.new }
{
    let mut kept = i;
    for j in i..n {
        let w = map[j];
        if !gone(entry_in(w)) {
            map[kept] = w;
            kept += 1;
        }
    }
    kept
}
