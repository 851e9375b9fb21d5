// An entry of the map, and an entry as a word.
ghost use Rattle.std.specs.Prelude.{◌≡◌, ◌%◌, ◌^◌};
ghost use Rattle.alias_map.specs.Words.{entry_from};

use crate::layout::{ALIAS, ALIASES, IDS};
use headers::alias::Alias;

#[derive(Clone, Copy, Debug, PartialEq, Eq)]
pub struct Entry {
    pub alias: Alias,
    pub id: u64,
}

// The entry that a word holds, whatever the word.
#[tactic(auto, unfolding(crate::specs::Words::entry_from))]
pub(crate) fn entry_in(w: u64) -> Entry
    ensures { result ≡ entry_from w }
{
    Entry {
        alias: Alias((w / ALIAS % ALIASES) as u16),
        id: w % IDS,
    }
}

// The word of this alias and Node ID, of which the low 12 and 48 bits count.
pub(crate) fn word_of(alias: Alias, id: u64) -> u64
    ensures { entry_from result ≡ record { alias = record { 0 = alias.0 % 2 ^ 12 }; id = id % 2 ^ 48 } }
{
    u64::from(alias.0) % ALIASES * ALIAS + id % IDS
}
