// Looking an alias up: the Node ID that it stands for, and how many entries were compared (A.4). The search ends at its hit.
ghost use Rattle.std.specs.Prelude.{◌≡◌};
ghost use Rattle.alias_map.specs.Rules.{id_of};
ghost use Rattle.alias_map.specs.Words.{entries_of};
ghost use Rattle.alias_map.specs.Answers.{id_as};

use crate::answer::{Hit, Refusal};
use crate::entry::{Entry, entry_in};
use crate::layout::WORDS;
use crate::map::len;
use crate::search::find;
use headers::alias::Alias;

// The Node ID of an alias.
pub fn id_of(map: &[u64; WORDS], alias: Alias) -> Result<Hit<u64>, Refusal>
    ensures { id_as result ≡ id_of (entries_of map.now) alias.0 }
{
    let i = find(map, len(map), |e: Entry| e.alias == alias).ok_or(Refusal::Absent)?;
    let e = entry_in(map[i]);
    Ok(Hit {
        value: e.id,
        compared: i + 1,
    })
}
