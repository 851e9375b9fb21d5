// The layout of a map in one array of words: where each word stands, said here alone in the code. The rules' side of it is
// specs/Words.antt. One array with its count, and no map of the library's: C holds it, and nothing is allocated.

// What a map is laid out for.
#[derive(Clone, Copy, Debug, PartialEq, Eq)]
pub struct Map;

impl Map {
    // The entries that a map has room for.
    pub const ROOM: usize = 64;
}

// The words of a map. Its first hold the entries, one each, the oldest first; then one word counts them.
pub const WORDS: usize = Map::ROOM + 1;

pub(crate) const COUNT: usize = Map::ROOM;

// A search compares the entries of a row one after another before it looks again at how many entries there are.
pub(crate) const ROW: usize = 8;

// WITHIN AN ENTRY'S WORD: the highest 12 bits are the alias, the lowest 48 the Node ID; the 4 between are ignored.

pub(crate) const IDS: u64 = 0x1_0000_0000_0000;

pub(crate) const ALIAS: u64 = 0x10_0000_0000_0000;

pub(crate) const ALIASES: u64 = 0x1000;
