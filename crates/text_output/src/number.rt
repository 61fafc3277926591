// Numbers as text.
ghost use Rattle.std.specs.Prelude.{◌≡◌, [], ◌+◌, ◌≤◌, ◌<◌, length, drop};
ghost use Rattle.text_output.specs.Cursor.{farthest};
ghost use Rattle.text_output.specs.Digits.{digits_before, hex_digit, decimal, hex};
ghost use Rattle.text_output.specs.Output.{Appended};

use crate::Output;

// A digit below 16.
fn digit(n: u32) -> u8
    requires { n < 16 }
    ensures { result ≡ hex_digit n }
{
    if n < 10 {
        b'0' + n as u8
    } else {
        b'a' + (n - 10) as u8
    }
}

// Fills `digits` from its end with those of n, the lowest last; the answer is where they begin.
#[tactic(auto, using(crate::proofs::Digits::no_digit_yet))]
fn fill_digits(digits: &mut [u8], n: u32, base: u32) -> usize
    requires { (1 < base) × (base ≤ 16) }
    ensures start { result ≤ length digits.old }
    ensures digits { drop result digits.new ≡ digits_before hex_digit base (length digits.old) n [] }
{
    let mut left = n;
    for i in (0..digits.len()).rev() {
        digits[i] = digit(left % base);
        if left < base {
            return i;
        }
        left /= base;
    }
    0
}

impl Output<'_> {
    // Writes n in a base in which it has at most N digits.
    #[inline]
    fn put_digits<const N: usize>(&mut self, n: u32, base: u32)
        requires place { self.old.at ≤ farthest }
        requires base { (1 < base) × (base ≤ 16) }
        requires room { N ≤ 10 }
        ensures text { Appended self.old self.new (digits_before hex_digit base N n []) }
        ensures near { self.new.at ≤ self.old.at + N }
    {
        let mut room = [0u8; N];
        let digits = &mut room[..];
        let start = fill_digits(digits, n, base);
        self.put_bytes(&digits[start..]);
    }

    // Writes n in decimal.
    #[inline]
    #[tactic(auto, using(crate::proofs::Digits::filled_decimal))]
    pub fn put_decimal(&mut self, n: u32)
        requires { self.old.at ≤ farthest }
        ensures text { Appended self.old self.new (decimal n) }
        ensures near { self.new.at ≤ self.old.at + 10 }
    {
        self.put_digits::<10>(n, 10);
    }

    // Writes n in lower-case hex.
    #[inline]
    #[tactic(auto, using(crate::proofs::Digits::filled_hex))]
    pub fn put_hex(&mut self, n: u32)
        requires { self.old.at ≤ farthest }
        ensures text { Appended self.old self.new (hex n) }
        ensures near { self.new.at ≤ self.old.at + 8 }
    {
        self.put_digits::<8>(n, 16);
    }
}
