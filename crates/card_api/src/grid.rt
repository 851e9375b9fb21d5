// Extended data frames as GridConnect text for C (A.7).
ghost use Rattle.std.specs.Prelude.{◌≡◌, [], ◌∷◌, length};
ghost use Rattle.gridconnect.specs.Rules.{write, length_of, buffer_of, read};
ghost use Rattle.card_api.specs.Out.{Out, one};
ghost use Rattle.card_api.specs.Grid.{frame_words};

use crate::put_out;
use gridconnect::answer::Frame;

// The length as one word.
fn length_words(n: usize) -> [u64; 1]
    ensures { result ≡ one n }
{
    [n as u64]
}

// Writes the text, and how long it is.
#[unsafe(no_mangle)]
pub extern "C" fn grid_write(
    text: &mut [u8],
    header: u32,
    len: u8,
    bytes: u64,
    written: &mut [u64; 1],
) -> u64
    ensures out { Out one (length_of (write (length text.old) header len bytes)) result written.old written.new }
    ensures text_after { text.new ≡ buffer_of (write (length text.old) header len bytes) text.old }
{
    let answer = gridconnect::writer::write(text, header, len, bytes);
    put_out(answer, written, length_words)
}

// Header, length, data.
fn frame_words(f: Frame) -> [u64; 3]
    ensures { result ≡ f.header ∷ f.len ∷ f.bytes ∷ [] }
{
    [u64::from(f.header), u64::from(f.len), f.bytes]
}

// Writes header, length and data of the frame that the text stands for.
#[unsafe(no_mangle)]
pub extern "C" fn grid_read(text: &[u8], frame: &mut [u64; 3]) -> u64
    ensures { Out frame_words (read text.now) result frame.old frame.new }
{
    let answer = gridconnect::reader::read(text);
    put_out(answer, frame, frame_words)
}
