// What the reader gives, how long a text is, and why writing and reading are refused.
ghost use Rattle.gridconnect.specs.Answers.{refusal_as};

use headers::refusal::Numbered;

// By the numbers of documents 01 and 02.
#[derive(Clone, Copy, Debug, PartialEq, Eq)]
pub enum Refusal {
    Malformed = 9,
    NotGridConnect = 16,
    ShortBuffer = 17,
}

impl Numbered for Refusal {
    ghost number_of = { refusal_as };

    fn number(self) -> u8 {
        self as u8
    }
}

// The frame that a text stands for: without a kind, as only extended data frames have a text. bytes: the data as one number, the
// first byte highest of eight, those past the length 0; C takes it, and the length, as a word each.
#[derive(Clone, Copy, Debug, PartialEq, Eq)]
pub struct Frame {
    pub header: u32,
    pub len: u8,
    pub bytes: u64,
}

// A text without data, and one with eight bytes of it.
pub const SHORTEST: usize = 12;

pub const LONGEST: usize = 28;
