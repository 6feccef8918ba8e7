// Numbers as people read them: decimal, and signed fixed point. Assumes nothing.
ghost use Rattle.std.specs.Prelude.{◌≡◌, [], ◌∷◌, ◌≤◌};
ghost use Rattle.reporting.specs.Numbers.{last_digit, digits, digit_count, decimal, sign, in_places, fixed};
ghost use Rattle.report.specs.Writing.{HasRoom, Adds};

use crate::writer::Writer;

// Digits by hand and not by std's Display: `write!` may answer an error, and no contract of std's says that none comes where
// there is room, so that a line's promise could not be kept.

// How many digits n has in decimal, of which a 64-bit number has at most 20.
fn digit_count(n: u64) -> usize
    ensures value { result ≡ digit_count n }
    ensures upper_bound { result ≤ 20 }
{
    n.max(1).ilog10() as usize + 1
}

impl Writer<'_> {
    // The last digit of n.
    fn last_digit(&mut self, n: u64)
        requires { HasRoom self.old 1 }
        ensures { Adds 1 self.old (last_digit n ∷ []) self.new }
    {
        self.byte(b'0' + (n % 10) as u8);
    }

    // The last k digits of n.
    fn digits(&mut self, k: usize, n: u64)
        requires { HasRoom self.old k }
        ensures { Adds k self.old (digits k n) self.new }
    {
        if k > 0 {
            self.digits(k - 1, n / 10);
            self.last_digit(n);
        }
    }

    // n in decimal.
    pub(crate) fn decimal(&mut self, n: u64)
        requires { HasRoom self.old 20 }
        ensures { Adds 20 self.old (decimal n) self.new }
    {
        self.digits(digit_count(n), n);
    }

    // A minus sign before a negative number, nothing before another.
    fn sign(&mut self, z: i32)
        requires { HasRoom self.old 1 }
        ensures { Adds 1 self.old (sign z) self.new }
    {
        if z < 0 {
            self.byte(b'-');
        }
    }

    // m units of 10^-places: the whole part, a point, and the places.
    fn in_places(&mut self, m: u64, places: u32)
        requires room { HasRoom self.old 31 }
        requires few_places { places ≤ 10 }
        ensures { Adds 31 self.old (in_places places m) self.new }
    {
        let unit = 10u64.pow(places);
        self.decimal(m / unit);
        self.byte(b'.');
        self.digits(places as usize, m);
    }

    // z in units of 10^-places.
    pub(crate) fn fixed(&mut self, z: i32, places: u32)
        requires room { HasRoom self.old 32 }
        requires few_places { places ≤ 10 }
        ensures { Adds 32 self.old (fixed places z) self.new }
    {
        self.sign(z);
        self.in_places(u64::from(z.unsigned_abs()), places);
    }
}
