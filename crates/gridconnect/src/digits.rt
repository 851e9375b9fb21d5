// Hexadecimal digits in either case, and the number that some of them stand for.
ghost use Rattle.std.specs.Prelude.{◌≡◌, ◌≤◌, length};
ghost use Rattle.gridconnect.specs.Rules.{value as value_of};
ghost use Rattle.gridconnect.specs.Answers.{Stands};

// The values of the bytes from `0` to `f`: 0 to 9, seven bytes that are no digits, A to F, 26 more, a to f.
static VALUES: [u8; 55] = *b"\x00\x01\x02\x03\x04\x05\x06\x07\x08\x09\
                            \x10\x10\x10\x10\x10\x10\x10\
                            \x0a\x0b\x0c\x0d\x0e\x0f\
                            \x10\x10\x10\x10\x10\x10\x10\x10\x10\x10\x10\x10\x10\
                            \x10\x10\x10\x10\x10\x10\x10\x10\x10\x10\x10\x10\x10\
                            \x0a\x0b\x0c\x0d\x0e\x0f";

// The value of a byte as a digit; 16 where it is none, as the rules' `value` has it.
fn value(b: u8) -> u8
    ensures { result ≡ value_of b }
{
    match b {
        b'0'..=b'f' => VALUES[(b - b'0') as usize],
        _ => 16,
    }
}

// The number that up to 16 digits stand for, the highest first. `from_str_radix` reads a `&str` and takes a sign; a text is bytes.
pub(crate) fn number(digits: &[u8]) -> Option<u64>
    requires { length digits.now ≤ 16 }
    ensures { Stands result digits.now }
{
    let mut n = 0;
    for &b in digits {
        let d = value(b);
        if 15 < d {
            return None;
        }
        n = 16 * n + d as u64;
    }
    Some(n)
}
