// Numbers in hexadecimal digits, a byte at a time.
ghost use Rattle.std.specs.Prelude.{◌≡◌, ◌*◌};
ghost use Rattle.text.specs.Rules.{hex, without, Puts};

use crate::buffer::Sheet;

impl Sheet<'_> {
    // The last byte of n.
    pub fn put_byte(&mut self, n: u64)
        ensures { Puts self.old (hex 2 n) self.new }
    {
        self.put_pair(n / 16 % 16, n % 16);
    }

    // The last bytes of n, as many as asked.
    pub fn put_hex(&mut self, bytes: usize, n: u64)
        ensures { Puts self.old (hex (2 * bytes) n) self.new }
    {
        for i in (0..bytes).rev() {
            let rest = if i < 8 { n >> (8 * i) } else { 0 };
            self.put_byte(rest);
        }
    }
}

// n without its last digits.
pub fn shortened(n: u64, digits: usize) -> u64
    ensures { result ≡ without digits n }
{
    if digits < 16 { n >> (4 * digits) } else { 0 }
}
