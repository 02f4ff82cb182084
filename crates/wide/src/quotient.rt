// Two words divided by one, by long division with digits of 29 bits.
ghost use Rattle.std.specs.Prelude.{◌≡◌, ◌+◌, ◌*◌, ◌/◌, ◌%◌, ◌^◌, ◌<◌, ◌≤◌};
ghost use Rattle.wide.specs.Exact.{divided, ratio};

use super::product::multiply;
use super::{Divided, NoRatio, Words};

// A divisor with its top bit set.
#[derive(Clone, Copy)]
struct Divisor {
    v: u64,
    ghost top: { 2 ^ 63 ≤ v },
}

impl Divisor {
    // One step: h × 2^29 + d over v. q, by v's upper 35 bits, is too large by 1 at most: m is what it leaves of the dividend, and p what
    // v's lower 29 bits take of that. The wide divisor keeps the machine's division of one kind.
    fn digit(self, h: u64, d: u64) -> Divided
        requires { (h < self.v) × (d < 2 ^ 29) }
        ensures { result ≡ divided (h * 2 ^ 29 + d) self.v }
    {
        let v1 = self.v >> 29;
        let q = h / v1;
        let m = (h % v1) * 0x2000_0000 + d;
        let p = q * (self.v & 0x1fff_ffff);
        if p <= m {
            Divided {
                quot: q,
                rem: m - p,
            }
        } else {
            Divided {
                quot: q - 1,
                rem: self.v - (p - m),
            }
        }
    }

    // Two steps: x × 2^58 + n over v, for an n below 2^58.
    fn two_digits(self, x: u64, n: u64) -> Divided
        requires { (x < self.v) × (n < 2 ^ 58) }
        ensures { result ≡ divided (x * 2 ^ 58 + n) self.v }
    {
        let first = self.digit(x, n >> 29);
        let second = self.digit(first.rem, n & 0x1fff_ffff);
        Divided {
            quot: first.quot * 0x2000_0000 + second.quot,
            rem: second.rem,
        }
    }

    // Two words over v. A quotient of up to 58 bits takes two digits; a longer one is found for all but the last 6 bits, and then those.
    fn divide(self, high: u64, low: u64) -> Divided
        requires { high < self.v }
        ensures { result ≡ divided (high * 2 ^ 64 + low) self.v }
    {
        if high < self.v >> 6 {
            return self.two_digits(high * 64 + (low >> 58), low & 0x3ff_ffff_ffff_ffff);
        }
        let first = self.two_digits(high, low >> 6);
        let second = self.two_digits(
            first.rem >> 52,
            (first.rem & 0xf_ffff_ffff_ffff) * 64 + (low & 63),
        );
        Divided {
            quot: first.quot * 64 + second.quot,
            rem: second.rem,
        }
    }
}

// n over c, for a quotient of one word. Both are moved up so that the divisor's top bit is set: the quotient stays, and the
// remainder is moved back down.
fn divide(n: Words, c: u64) -> Divided
    requires { n.high < c }
    ensures { result ≡ divided (n.high * 2 ^ 64 + n.low) c }
{
    let s = c.leading_zeros();
    let high = (n.high << s) + ((n.low >> 1) >> (63 - s));
    let divisor = Divisor { v: c << s };
    let r = divisor.divide(high, n.low << s);
    Divided {
        quot: r.quot,
        rem: r.rem >> s,
    }
}

// a × b over c. A product of one word, as most are, takes one plain division.
pub fn of_product(a: u64, b: u64, c: u64) -> Result<Divided, NoRatio>
    ensures { result ≡ ratio a b c }
{
    if c == 0 {
        return Err(NoRatio::ByZero);
    }
    let n = multiply(a, b);
    if n.high == 0 {
        return Ok(Divided {
            quot: n.low / c,
            rem: n.low % c,
        });
    }
    if n.high < c {
        Ok(divide(n, c))
    } else {
        Err(NoRatio::Over)
    }
}
