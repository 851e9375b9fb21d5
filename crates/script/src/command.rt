// The commands of a script, and how one is read from the bytes that it starts.
ghost use Rattle.std.specs.Prelude.{◌≡◌, ◌+◌, ◌<◌, ◌≤◌, ◌^◌, length, drop, unwrap_or, IfSome, Err};
ghost use Rattle.script.specs.Rules.{number, form, read_of, refusal};
ghost use Rattle.script.specs.Answers.{command_as, read_as};
ghost use Rattle.script.specs.Forms.{Takes, made, Whole};

use headers::frame::Frame;

// Operands are as the script has them, numbers out of range too: the table refuses them.
#[derive(Clone, Copy, Debug, PartialEq, Eq)]
pub enum Command {
    PowerOn {
        index: u8,
        id: u64,
    },
    Send(u8),
    Fail(u8),
    Deliver(u8),
    Tick,
    Foreign(Frame),
    Message {
        index: u8,
        field: u16,
        len: u8,
        bytes: u64,
    },
    Enquiry {
        index: u8,
        len: u8,
        id: u64,
    },
    Release(u8),
    WarmOn {
        index: u8,
        id: u64,
        flag: u8,
        state: u64,
    },
}

// A command of a script with its byte, and how many bytes it takes. The byte stays a number: the output repeats it, and an unknown
// one too.
#[derive(Clone, Copy, Debug, PartialEq, Eq)]
pub struct Next {
    pub byte: u8,
    pub command: Command,
    pub took: usize,
}

// A byte that ends the run: it starts no command, or one that is cut short.
#[derive(Clone, Copy, Debug, PartialEq, Eq)]
pub enum Fault {
    Unknown(u8),
    CutShort(u8),
}

impl Fault {
    // The byte, and the number of its refusal: the rules' `refusal` has the two together.
    pub(crate) fn refusal(self) -> (u8, u8)
        ensures { read_as (Err self) ≡ refusal result.0 result.1 }
    {
        match self {
            Fault::Unknown(byte) => (byte, 10),
            Fault::CutShort(byte) => (byte, 11),
        }
    }
}

// The number that the N bytes from a place on make, the highest first. By places, as the rules' `number` goes: a loop over
// `&s[from..from + N]` names the same place twice and is no plainer.
#[tactic(auto, unfolding(crate::specs::Rules::number))]
fn number<const N: usize>(s: &[u8], from: usize) -> u64
    requires { (N ≤ 8) × (from + N ≤ length s.now) }
    ensures { (result ≡ number s.now from N) × (result < 256 ^ N) }
{
    let mut n = 0;
    for i in 0..N {
        n = 0x100 * n + u64::from(s[from + i]);
    }
    n
}

// How many bytes a command takes, its own byte included; none for an unknown one. This match and the next are the paper's table of
// forms: what they choose is a number and an operand's reading, no step.
#[tactic(auto, unfolding(crate::specs::Rules::form))]
fn size_of(byte: u8) -> Option<usize>
    ensures takes { Takes byte (unwrap_or result 0) }
    ensures some { IfSome result (λ n. 0 < n) }
{
    match byte {
        1 => Some(8),
        2 | 3 | 4 => Some(2),
        5 => Some(1),
        6 => Some(15),
        7 => Some(13),
        8 => Some(9),
        9 => Some(2),
        10 => Some(15),
        _ => None,
    }
}

// The command with this byte, whose operands are all there.
#[tactic(auto, unfolding(crate::specs::Rules::form))]
fn command_of(byte: u8, s: &[u8]) -> Command
    requires { Whole byte s.now }
    ensures { command_as result ≡ made (form byte) 1 s.now }
{
    match byte {
        1 => Command::PowerOn {
            index: s[1],
            id: number::<6>(s, 2),
        },
        2 => Command::Send(s[1]),
        3 => Command::Fail(s[1]),
        4 => Command::Deliver(s[1]),
        5 => Command::Tick,
        6 => Command::Foreign(Frame {
            kind: s[1],
            header: number::<4>(s, 2) as u32,
            len: s[6],
            bytes: number::<8>(s, 7),
        }),
        7 => Command::Message {
            index: s[1],
            field: number::<2>(s, 2) as u16,
            len: s[4],
            bytes: number::<8>(s, 5),
        },
        8 => Command::Enquiry {
            index: s[1],
            len: s[2],
            id: number::<6>(s, 3),
        },
        9 => Command::Release(s[1]),
        _ => Command::WarmOn {
            index: s[1],
            id: number::<6>(s, 2),
            flag: s[8],
            state: number::<6>(s, 9),
        },
    }
}

// The command at the head of the rest of a script, if there is more of it.
pub fn read_command(rest: &[u8]) -> Result<Option<Next>, Fault>
    ensures { read_as result ≡ read_of rest.now }
{
    let [byte, ..] = *rest else {
        return Ok(None);
    };
    let Some(took) = size_of(byte) else {
        return Err(Fault::Unknown(byte));
    };
    if rest.len() < took {
        return Err(Fault::CutShort(byte));
    }
    Ok(Some(Next {
        byte,
        command: command_of(byte, rest),
        took,
    }))
}

// The command at a place of a script: the part from there to the end is lent to the command reader.
pub(crate) fn read_at(script: &[u8], at: usize) -> Result<Option<Next>, Fault>
    ensures { read_as result ≡ read_of (drop at script.now) }
{
    if at < script.len() {
        read_command(&script[at..])
    } else {
        Ok(None)
    }
}
