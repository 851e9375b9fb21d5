// The map in its words: an empty one, and how many entries there are.
ghost use Rattle.std.specs.Prelude.{◌≡◌, []};
ghost use Rattle.alias_map.specs.Words.{entries_of};
ghost use Rattle.alias_map.specs.Parts.{Counted};

use crate::layout::{COUNT, Map, WORDS};

#[tactic(auto, unfolding(crate::specs::Words::entries_of))]
pub fn new(map: &mut [u64; WORDS])
    ensures { entries_of map.new ≡ [] }
{
    *map = [0; WORDS];
}

// How many entries there are. A count that no operation leaves may be too large: then every place holds one.
pub(crate) fn len(map: &[u64; WORDS]) -> usize
    ensures { Counted map.now result }
{
    Map::ROOM.min(map[COUNT] as usize)
}
