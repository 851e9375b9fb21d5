// Looking at a node: what demand 3 compares, read out. It changes no word.
ghost use Rattle.std.specs.Prelude.{◌≡◌};
ghost use Rattle.segment_rules.specs.Looks.{state_number, id_seen, alias_seen, seen, looks, looks_in};
ghost use Rattle.table.specs.Answers.{seen_as, look_as, found_as};
ghost use Rattle.table.specs.Words.{place_of, cell_at, view};

use crate::layout::WORDS;
use crate::place::Place;
use crate::store;
use headers::alias::Alias;
use headers::frame::Frame;
use headers::refusal::Refusal;
use state::Phase;

// The state by its number (0 Off, 1 Testing, 2 Reserved, 3 Permitted, 4 Leaving, 5 Resting, 6 Silent), the Node ID (0 where
// Off), the alias in test or in use (0 where neither), the due frame, and how many frames the inbox has. C and the rules
// `looks` compare the number, which no phase has by itself: of Testing and Leaving it leaves out what is within.
#[derive(Clone, Copy, Debug, PartialEq, Eq)]
pub struct Seen {
    pub state: u8,
    pub id: u64,
    pub alias: Alias,
    pub due: Option<Frame>,
    pub count: u64,
}

fn state_number(p: Phase) -> u8
    ensures { result ≡ state_number p }
{
    match p {
        Phase::Off => 0,
        Phase::Testing(_, _) => 1,
        Phase::Reserved => 2,
        Phase::Permitted => 3,
        Phase::Leaving(_) => 4,
        Phase::Resting => 5,
        Phase::Silent => 6,
    }
}

fn id_seen(p: Phase, id: u64) -> u64
    ensures { result ≡ id_seen p id }
{
    if p.is_off() { 0 } else { id }
}

fn alias_seen(p: Phase, a: Alias) -> Alias
    ensures { result.0 ≡ alias_seen p a.0 }
{
    match p {
        Phase::Off | Phase::Resting | Phase::Silent => Alias(0),
        _ => a,
    }
}

fn seen_at(t: &[u64; WORDS], k: Place) -> Seen
    ensures { seen_as result ≡ seen (place_of (cell_at t.now k.index)) }
{
    let n = store::load_node(t, k);
    Seen {
        state: state_number(n.phase),
        id: id_seen(n.phase, n.own.id),
        alias: alias_seen(n.phase, n.alias),
        due: n.due(),
        count: store::count_at(t, k),
    }
}

// The node at an index.
pub fn look(table: &[u64; WORDS], index: usize) -> Result<Seen, Refusal>
    ensures { look_as result ≡ looks (view table.now) index }
{
    let k = Place::try_from(index)?;
    Ok(seen_at(table, k))
}

// A frame of its inbox by its place, 0 for the oldest.
pub fn inbox(table: &[u64; WORDS], index: usize, place: usize) -> Result<Frame, Refusal>
    ensures { found_as result ≡ looks_in (view table.now) index place }
{
    let k = Place::try_from(index)?;
    if store::count_at(table, k) <= place as u64 {
        return Err(Refusal::InboxEmpty);
    }
    Ok(store::frame_in(table, k, place as u64))
}
