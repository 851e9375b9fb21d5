// The search for the first of the entries of which a test holds. It ends at its hit.
ghost use Rattle.std.specs.Prelude.{◌<◌, ◌≤◌, ◌+◌, IfSome};
ghost use Rattle.std.specs.Option.{unwrap_or};
ghost use Rattle.alias_map.specs.Rules.{room};
ghost use Rattle.alias_map.specs.Parts.{Tests, Found, Met};

use crate::entry::{Entry, entry_in};
use crate::layout::{ROW, WORDS};

// The place of the first of n entries that is looked for. The whole array is lent, and the entries of a row are compared without a
// look at n between them: `map[..n].iter().position(..)` takes 1.2 to 2.4 times as long, a `for` over 0..n 1.3 to 1.7 times, and
// a `for` over 0..n.div_ceil(ROW) takes longer to the first entry.
pub(crate) fn find<F: Fn(Entry) -> bool>(map: &[u64; WORDS], n: usize, is: F) -> Option<usize>
    requires call { F.IsAlwaysCallable is }
    requires few { n ≤ room }
    ensures within { IfSome result (λ i. i < n) }
    ensures first { (p : _) → Tests F.Fn is p → Found p map.now n (unwrap_or result n) }
    ensures compared { (p : _) → Tests F.Fn is p → Met p map.now n (unwrap_or result n + 1) }
{
    let mut row = 0;
    while row < n {
        for i in row..row + ROW {
            if is(entry_in(map[i])) {
                return if i < n { Some(i) } else { None };
            }
        }
        row += ROW;
    }
    None
}
