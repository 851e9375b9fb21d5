// The reader: the frame that a text stands for.
ghost use Rattle.std.specs.Prelude.{◌≡◌, ◌-◌, ◌*◌, ◌^◌, ◌≤◌, ◌<◌};
ghost use Rattle.gridconnect.specs.Rules.{framed, read};
ghost use Rattle.gridconnect.specs.Answers.{read_as};

use crate::answer::{Frame, LONGEST, Refusal, SHORTEST};
use crate::digits::number;

// Whether all but the digits is as it has to be. The length is tested apart: with it in one expression, the compiler does not see
// that the digits come in pairs, and a text takes 14 instructions more.
#[tactic(auto, unfolding(crate::specs::Rules::framed))]
fn is_framed(text: &[u8]) -> bool
    ensures { result ≡ framed text.now }
{
    let length = text.len();
    if length < SHORTEST || LONGEST < length || length % 2 != 0 {
        return false;
    }
    text[0] == b':' && text[1] == b'X' && text[10] == b'N' && text[length - 1] == b';'
}

// A number of up to 16 digits with zeros behind them, 16 digits in all.
fn padded(n: u64, digits: usize) -> u64
    requires { (digits ≤ 16) × (n < 16 ^ digits) }
    ensures { result ≡ n * 16 ^ (16 - digits) }
{
    if digits == 0 {
        0
    } else {
        n << (64 - 4 * digits)
    }
}

pub fn read(text: &[u8]) -> Result<Frame, Refusal>
    ensures { read_as result ≡ read text.now }
{
    if !is_framed(text) {
        return Err(Refusal::NotGridConnect);
    }
    let Some(header) = number(&text[2..10]) else {
        return Err(Refusal::NotGridConnect);
    };
    if 0x1FFF_FFFF < header {
        return Err(Refusal::NotGridConnect);
    }
    let digits = text.len() - SHORTEST;
    let Some(n) = number(&text[11..11 + digits]) else {
        return Err(Refusal::NotGridConnect);
    };
    Ok(Frame {
        header: header as u32,
        len: (digits / 2) as u8,
        bytes: padded(n, digits),
    })
}
