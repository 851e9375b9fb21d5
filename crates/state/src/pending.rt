// What waits at a node, and what the host may order to wait.
ghost use Rattle.std.specs.Prelude.{◌≡◌, ◌||◌, eqb};
ghost use Rattle.state.specs.Rules.{none_waiting, with_reply, with_amd, with_report, with_error, with_host};

use crate::{Error, Host, Waiting};

// Whether an enquiry can have this length.
pub fn asks(len: u8) -> bool
    ensures { result ≡ (eqb len 0 || eqb len 6) }
{
    matches!(len, 0 | 6)
}

impl Waiting {
    pub fn none() -> Waiting
        ensures { result ≡ none_waiting }
    {
        Waiting {
            reply: false,
            amd: false,
            report: false,
            error: None,
            host: None,
        }
    }

    // One for each field: no parameter can stand for the field.
    pub fn with_reply(self, reply: bool) -> Waiting
        ensures { result ≡ with_reply self reply }
    {
        Waiting { reply, ..self }
    }

    pub fn with_amd(self, amd: bool) -> Waiting
        ensures { result ≡ with_amd self amd }
    {
        Waiting { amd, ..self }
    }

    pub fn with_report(self, report: bool) -> Waiting
        ensures { result ≡ with_report self report }
    {
        Waiting { report, ..self }
    }

    pub fn with_error(self, error: Option<Error>) -> Waiting
        ensures { result ≡ with_error self error }
    {
        Waiting { error, ..self }
    }

    pub fn with_host(self, host: Option<Host>) -> Waiting
        ensures { result ≡ with_host self host }
    {
        Waiting { host, ..self }
    }
}
