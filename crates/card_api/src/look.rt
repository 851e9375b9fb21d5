// Looking at a node, for C: what is seen of it, and the frames of its inbox, as words. A refusal writes none.
ghost use Rattle.std.specs.Prelude.{◌≡◌};
ghost use Rattle.state.specs.Answers.{due_as};
ghost use Rattle.segment_rules.specs.Looks.{looks, looks_in};
ghost use Rattle.table.specs.Answers.{seen_as};
ghost use Rattle.table.specs.Words.{view};
ghost use Rattle.card_api.specs.Out.{Out};
ghost use Rattle.card_api.specs.Looks.{due_frame, seen_words, frame_words};

use crate::put_out;
use headers::frame::Frame;
use table::layout::WORDS;
use table::look::Seen;

// The due frame, all 0 where none is.
fn due_frame(due: Option<Frame>) -> Frame
    ensures { result ≡ due_frame (due_as due) }
{
    due.unwrap_or(Frame {
        kind: 0,
        header: 0,
        len: 0,
        bytes: 0,
    })
}

#[tactic(auto, unfolding(crate::specs::Looks::seen_words))]
fn seen_words(s: Seen) -> [u64; 12]
    ensures { result ≡ seen_words (seen_as s) }
{
    let due = due_frame(s.due);
    [
        u64::from(s.state),
        s.id,
        u64::from(s.alias.0),
        u64::from(s.due.is_some()),
        u64::from(due.header),
        u64::from(due.len),
        due.bytes,
        s.count,
        0,
        0,
        0,
        0,
    ]
}

// State, Node ID, alias; whether a frame is due, its header, length and data; how many frames the inbox has; four words 0.
#[unsafe(no_mangle)]
pub extern "C" fn card_look(table: &[u64; WORDS], index: usize, seen: &mut [u64; 12]) -> u64
    ensures { Out seen_words (looks (view table.now) index) result seen.old seen.new }
{
    let answer = table::look::look(table, index);
    put_out(answer, seen, seen_words)
}

// Kind, header, length, data.
fn frame_words(f: Frame) -> [u64; 4]
    ensures { result ≡ frame_words f }
{
    [
        u64::from(f.kind),
        u64::from(f.header),
        u64::from(f.len),
        f.bytes,
    ]
}

// A frame of the inbox, 0 for the oldest.
#[unsafe(no_mangle)]
pub extern "C" fn card_inbox(
    table: &[u64; WORDS],
    index: usize,
    place: usize,
    frame: &mut [u64; 4],
) -> u64
    ensures { Out frame_words (looks_in (view table.now) index place) result frame.old frame.new }
{
    let answer = table::look::inbox(table, index, place);
    put_out(answer, frame, frame_words)
}
