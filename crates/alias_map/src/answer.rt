// What the map's operations give, or why they are refused.
ghost use Rattle.alias_map.specs.Answers.{refusal_as};

use headers::refusal::Numbered;

// By the numbers of document 01.
#[derive(Clone, Copy, Debug, PartialEq, Eq)]
pub enum Refusal {
    Malformed = 9,
    Full = 12,
    Absent = 13,
}

impl Numbered for Refusal {
    ghost number_of = { refusal_as };

    fn number(self) -> u8 {
        self as u8
    }
}

// What a look-up found, and how many entries were compared (A.4).
#[derive(Clone, Copy, Debug, PartialEq, Eq)]
pub struct Hit<T> {
    pub value: T,
    pub compared: usize,
}
