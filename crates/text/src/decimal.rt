// Numbers in decimal digits, up to four at a time, into a lent buffer: a format would ask for room at each part. The functions for
// each size differ in what they call and in the size; as one they would need a const argument reckoned from another, which Rattle
// does not have.
ghost use Rattle.std.specs.Prelude.{◌<◌};
ghost use Rattle.text.specs.Rules.{decimal, sheet, Wrote, Puts};
ghost use Rattle.text.specs.Decimal.{last_two, last_four};

use crate::buffer::Sheet;
use crate::digits::digit;

impl Sheet<'_> {
    // The last two digits of n.
    fn put_two(&mut self, n: u64)
        ensures { Puts self.old (last_two n) self.new }
    {
        self.put_pair(n / 10 % 10, n % 10);
    }

    // The last four digits of n.
    fn put_four(&mut self, n: u64)
        ensures { Puts self.old (last_four n) self.new }
    {
        self.put_two(n / 100);
        self.put_two(n);
    }

    // A number of one or two digits.
    fn put_below_100(&mut self, n: u64)
        requires { n < 100 }
        ensures { Puts self.old (decimal n) self.new }
    {
        if n < 10 {
            self.put(digit(n));
        } else {
            self.put_two(n);
        }
    }

    // A number of up to four digits.
    fn put_below_10000(&mut self, n: u64)
        requires { n < 10000 }
        ensures { Puts self.old (decimal n) self.new }
    {
        if n < 100 {
            self.put_below_100(n);
        } else {
            self.put_below_100(n / 100);
            self.put_two(n);
        }
    }

    // A number of up to eight digits.
    fn put_below_100000000(&mut self, n: u64)
        requires { n < 100000000 }
        ensures { Puts self.old (decimal n) self.new }
    {
        if n < 10000 {
            self.put_below_10000(n);
        } else {
            self.put_below_10000(n / 10000);
            self.put_four(n);
        }
    }

    // Any number, four digits at a time.
    fn put_long(&mut self, n: u64)
        ensures { Puts self.old (decimal n) self.new }
    {
        if n < 10000 {
            self.put_below_10000(n);
        } else {
            self.put_long(n / 10000);
            self.put_four(n);
        }
    }

    #[inline(always)]
    pub fn put_decimal(&mut self, n: u64)
        ensures { Puts self.old (decimal n) self.new }
    {
        self.at = decimal_at(self.out, self.at, n);
    }
}

// Buffer and place go by value here, and not as a sheet: a sheet that is lent to a call that stays one lies in memory, and then each
// byte of a whole line stores its place (a line without data takes 173 instructions in place of 145).
#[inline(never)]
fn decimal_at(out: &mut [u8], at: usize, n: u64) -> usize
    ensures { Wrote (sheet out.old at) (decimal n) (sheet out.new result) }
{
    if n < 100000000 {
        let mut sheet = Sheet { out, at };
        sheet.put_below_100000000(n);
        return sheet.at;
    }
    let mut sheet = Sheet { out, at };
    sheet.put_long(n);
    sheet.at
}
