// The writer: a frame as text, stored at the start of a lent buffer.
ghost use Rattle.std.specs.Prelude.{◌≡◌, [], ◌∷◌, ◌+◌, ◌*◌, ◌%◌, ◌≤◌, ◌<◌, length, take};
ghost use Rattle.text.specs.Rules.{digit, hex, sheet, Wrote};
ghost use Rattle.gridconnect.specs.Rules.{text_of};
ghost use Rattle.gridconnect.specs.Answers.{Writes};

use crate::answer::{Refusal, SHORTEST};

static DIGITS: [u8; 16] = *b"0123456789ABCDEF";

// One byte at its place. Each place is fixed by the frame's shape, so nothing is counted along: a sheet would count, and ask for
// room at every byte.
fn store(text: &mut [u8], at: usize, b: u8)
    requires { at < length text.old }
    ensures { Wrote (sheet text.old at) (b ∷ []) (sheet text.new (at + 1)) }
{
    text[at] = b;
}

// The last digit of n.
fn last_digit(n: u64) -> u8
    ensures { result ≡ digit (n % 16) }
{
    DIGITS[(n % 16) as usize]
}

// The two digits of the last byte of n.
fn store_byte(text: &mut [u8], at: usize, n: u64)
    requires { at + 2 ≤ length text.old }
    ensures { Wrote (sheet text.old at) (hex 2 n) (sheet text.new (at + 2)) }
{
    store(text, at, last_digit(n / 16));
    store(text, at + 1, last_digit(n));
}

// The eight digits of a header.
fn store_header(text: &mut [u8], header: u64)
    requires { 10 ≤ length text.old }
    ensures { Wrote (sheet text.old 2) (hex 8 header) (sheet text.new 10) }
{
    store_byte(text, 2, header / 0x100_0000);
    store_byte(text, 4, header / 0x1_0000);
    store_byte(text, 6, header / 0x100);
    store_byte(text, 8, header);
}

// Two digits for each data byte, of which there are so many.
fn store_data(text: &mut [u8], count: usize, bytes: u64)
    requires { (count ≤ 8) × (11 + 2 * count ≤ length text.old) }
    ensures { Wrote (sheet text.old 11) (take (2 * count) (hex 16 bytes)) (sheet text.new (11 + 2 * count)) }
{
    for i in 0..count {
        store_byte(text, 11 + 2 * i, bytes >> (56 - 8 * i));
    }
}

// The whole text.
fn store_text(text: &mut [u8], header: u64, count: usize, bytes: u64)
    requires { (count ≤ 8) × (12 + 2 * count ≤ length text.old) }
    ensures { Wrote (sheet text.old 0) (text_of header count bytes) (sheet text.new (12 + 2 * count)) }
{
    store(text, 0, b':');
    store(text, 1, b'X');
    store_header(text, header);
    store(text, 10, b'N');
    store_data(text, count, bytes);
    store(text, 11 + 2 * count, b';');
}

pub fn write(text: &mut [u8], header: u32, len: u8, bytes: u64) -> Result<usize, Refusal>
    ensures { Writes header len bytes result text.old text.new }
{
    if 0x1FFF_FFFF < header || 8 < len {
        return Err(Refusal::Malformed);
    }
    let count = len as usize;
    let length = SHORTEST + 2 * count;
    if text.len() < length {
        return Err(Refusal::ShortBuffer);
    }
    store_text(text, header as u64, count, bytes);
    Ok(length)
}
