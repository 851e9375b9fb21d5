// The digits that hexadecimal and decimal numbers are written with: capitals, where `char::from_digit` gives small letters.
// Reckoned here; the writer of texts, which writes more of them, has a table.
ghost use Rattle.std.specs.Prelude.{◌≡◌, [], ◌∷◌, ◌<◌};
ghost use Rattle.text.specs.Rules.{digit as digit_of, Puts};

use crate::buffer::Sheet;

#[tactic(auto, unfolding(crate::specs::Rules::digit))]
pub(crate) fn digit(n: u64) -> u8
    requires { n < 16 }
    ensures { result ≡ digit_of n }
{
    if n < 10 {
        b'0' + n as u8
    } else {
        b'A' - 10 + n as u8
    }
}

impl Sheet<'_> {
    // Two digits, the higher first.
    pub(crate) fn put_pair(&mut self, high: u64, low: u64)
        requires { (high < 16) × (low < 16) }
        ensures { Puts self.old (digit_of high ∷ digit_of low ∷ []) self.new }
    {
        self.put(digit(high));
        self.put(digit(low));
    }
}
