// Looking a Node ID up: the alias that stands for it, and how many entries were compared (A.4). The search ends at its hit.
ghost use Rattle.std.specs.Prelude.{◌≡◌};
ghost use Rattle.alias_map.specs.Rules.{alias_of};
ghost use Rattle.alias_map.specs.Words.{entries_of};
ghost use Rattle.alias_map.specs.Answers.{alias_as};

use crate::answer::{Hit, Refusal};
use crate::entry::{Entry, entry_in};
use crate::layout::WORDS;
use crate::map::len;
use crate::search::find;
use headers::alias::Alias;

// The alias of a Node ID. With `id_of` it shares `find`; as one, the four lines that are left would take two closures.
pub fn alias_of(map: &[u64; WORDS], id: u64) -> Result<Hit<Alias>, Refusal>
    ensures { alias_as result ≡ alias_of (entries_of map.now) id }
{
    let i = find(map, len(map), |e: Entry| e.id == id).ok_or(Refusal::Absent)?;
    let e = entry_in(map[i]);
    Ok(Hit {
        value: e.alias,
        compared: i + 1,
    })
}
