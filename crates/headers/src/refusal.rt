// Why a command of the segment, or what it uses, is refused: by the numbers of documents 01 and 02. A node alone is refused for
// reasons that need no segment. What stands beside the layers has reasons of its own.
ghost use Rattle.std.specs.Prelude.{◌≡◌, ℕ};
ghost use Rattle.headers.specs.Answers.{refusal_as};

#[derive(Clone, Copy, Debug, PartialEq, Eq)]
pub enum Refusal {
    BadIndex = 1,
    Off = 2,
    BadNodeId = 3,
    NothingDue = 4,
    InboxFull = 5,
    InboxEmpty = 6,
    NotPermitted = 7,
    HostWaiting = 8,
    Malformed = 9,
    BadLinkState = 14,
    NodeIdInUse = 15,
    BadStart = 18,
}

// A reason of refusal has a number, which one paper or the other gives it. Each enum says so with the same four lines: rt refuses an
// impl that a macro writes.
pub trait Numbered {
    ghost number_of: { Self → ℕ };

    fn number(self) -> u8
        ensures { result ≡ number_of self };
}

impl Numbered for Refusal {
    ghost number_of = { refusal_as };

    fn number(self) -> u8 {
        self as u8
    }
}
