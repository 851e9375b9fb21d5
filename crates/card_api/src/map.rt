// The map of foreign aliases for C.
ghost use Rattle.std.specs.Prelude.{◌≡◌, [], ◌∷◌};
ghost use Rattle.alias_map.specs.Rules.{id_of, alias_of};
ghost use Rattle.alias_map.specs.Words.{entries_of};
ghost use Rattle.card_api.specs.Out.{Out};
ghost use Rattle.card_api.specs.Map.{CodedNote, found_words};

use crate::{code, put_out};
use alias_map::answer::Hit;
use alias_map::layout::WORDS;
use headers::alias::Alias;
use headers::frame::Frame;

#[unsafe(no_mangle)]
pub extern "C" fn map_new(map: &mut [u64; WORDS])
    ensures { entries_of map.new ≡ [] }
{
    alias_map::map::new(map);
}

#[unsafe(no_mangle)]
pub extern "C" fn map_note(
    map: &mut [u64; WORDS],
    kind: u8,
    header: u32,
    len: u8,
    bytes: u64,
) -> u64
    ensures { CodedNote (record { kind = kind; header = header; len = len; bytes = bytes }) map.old result map.new }
{
    let f = Frame {
        kind,
        header,
        len,
        bytes,
    };
    code(alias_map::note::note(map, f))
}

// The Node ID found, and how many entries were compared.
fn id_words(hit: Hit<u64>) -> [u64; 2]
    ensures { result ≡ hit.value ∷ hit.compared ∷ [] }
{
    [hit.value, hit.compared as u64]
}

// The alias found, and how many entries were compared.
fn alias_words(hit: Hit<Alias>) -> [u64; 2]
    ensures { result ≡ hit.value.0 ∷ hit.compared ∷ [] }
{
    [u64::from(hit.value.0), hit.compared as u64]
}

// Writes the Node ID and the count, where the alias has one.
#[unsafe(no_mangle)]
pub extern "C" fn map_id_of(map: &[u64; WORDS], alias: u16, found: &mut [u64; 2]) -> u64
    ensures { Out found_words (id_of (entries_of map.now) alias) result found.old found.new }
{
    let answer = alias_map::by_alias::id_of(map, Alias(alias));
    put_out(answer, found, id_words)
}

// Writes the alias and the count, where the Node ID has one.
#[unsafe(no_mangle)]
pub extern "C" fn map_alias_of(map: &[u64; WORDS], id: u64, found: &mut [u64; 2]) -> u64
    ensures { Out found_words (alias_of (entries_of map.now) id) result found.old found.new }
{
    let answer = alias_map::by_id::alias_of(map, id);
    put_out(answer, found, alias_words)
}
