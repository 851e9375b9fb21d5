// Noting a frame that was seen on the bus.
ghost use Rattle.std.specs.Prelude.{◌≡◌, Ok};
ghost use Rattle.headers.specs.Answers.{kind_as};
ghost use Rattle.headers.specs.Rules.{accepted};
ghost use Rattle.alias_map.specs.Rules.{has_alias, without, add, define, note_kind};
ghost use Rattle.alias_map.specs.Words.{entry_from, entries_of};
ghost use Rattle.alias_map.specs.Answers.{Gives};
ghost use Rattle.alias_map.specs.Sound.{Notes};

use crate::answer::Refusal;
use crate::entry::{Entry, entry_in, word_of};
use crate::layout::{COUNT, Map, WORDS};
use crate::map::len;
use crate::remove::remove;
use crate::search::find;
use headers::alias::Alias;
use headers::frame::Frame;
use headers::header::{Kind, parts_of};
use headers::node_id::id_in;

// A new entry: those with its alias or its Node ID go, and it is the newest. Nothing is written before it is known that
// there is room, nor where it is the newest already.
fn add(map: &mut [u64; WORDS], w: u64) -> Result<(), Refusal>
    ensures { Gives map.old (add (entries_of map.old) (entry_from w)) result map.new }
{
    let new = entry_in(w);
    let replaced = move |e: Entry| e.alias == new.alias || e.id == new.id;
    let n = len(map);
    let i = find(map, n, replaced).unwrap_or(n);
    if Map::ROOM <= i {
        return Err(Refusal::Full);
    }
    if i + 1 == n && entry_in(map[i]) == new {
        return Ok(());
    }
    let others = remove(map, i, n, replaced);
    map[others] = w;
    map[COUNT] = others as u64 + 1;
    Ok(())
}

// An AMD with so many data bytes.
fn define(map: &mut [u64; WORDS], len: u8, w: u64) -> Result<(), Refusal>
    ensures { Gives map.old (define (entries_of map.old) len (entry_from w)) result map.new }
{
    let e = entry_in(w);
    if len != 6 || e.alias == Alias(0) || e.id == 0 {
        return Ok(());
    }
    add(map, w)
}

// An AMR: its alias goes.
fn reset(map: &mut [u64; WORDS], alias: Alias)
    ensures { Gives map.old (accepted (without (has_alias alias.0) (entries_of map.old))) (Ok tt) map.new }
{
    let released = move |e: Entry| e.alias == alias;
    let n = len(map);
    if let Some(i) = find(map, n, released) {
        let others = remove(map, i, n, released);
        map[COUNT] = others as u64;
    }
}

// An extended frame of this kind.
fn note_kind(map: &mut [u64; WORDS], kind: Kind, len: u8, w: u64) -> Result<(), Refusal>
    ensures { Gives map.old (note_kind (kind_as kind) (entries_of map.old) len (entry_from w)) result map.new }
{
    match kind {
        Kind::Amd => define(map, len, w),
        Kind::Amr => {
            reset(map, entry_in(w).alias);
            Ok(())
        }
        _ => Ok(()),
    }
}

// Note a frame.
pub fn note(map: &mut [u64; WORDS], f: Frame) -> Result<(), Refusal>
    ensures { Notes map.old f result map.new }
{
    if f.is_malformed() {
        return Err(Refusal::Malformed);
    }
    if f.kind == 0 {
        let p = parts_of(f.header);
        return note_kind(map, p.kind, f.len, word_of(p.alias, id_in(f.bytes)));
    }
    Ok(())
}
