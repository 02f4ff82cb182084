// The product of two words, from 32-bit halves: the form that paper 01 names ("Where to use each form"), in place of 128-bit integers.
ghost use Rattle.std.specs.Prelude.{◌≡◌, ◌+◌, ◌*◌, ◌/◌, ◌%◌, ◌^◌};
ghost use Rattle.wide.specs.Exact.{words};

use super::Words;

fn low_half(x: u64) -> u64
    ensures { result ≡ x % 2 ^ 32 }
{
    x & 0xffff_ffff
}

fn high_half(x: u64) -> u64
    ensures { result ≡ x / 2 ^ 32 }
{
    x >> 32
}

// x + y, the carry as the high word. A wrapping sum and a comparison, as paper 01 names them: one that wrapped is below each of its terms.
fn add(x: u64, y: u64) -> Words
    ensures { result ≡ words (x + y) }
{
    let low = x.wrapping_add(y);
    Words {
        high: u64::from(low < x),
        low,
    }
}

// a × b.
pub fn multiply(a: u64, b: u64) -> Words
    ensures { result ≡ words (a * b) }
{
    let a0 = low_half(a);
    let a1 = high_half(a);
    let b0 = low_half(b);
    let b1 = high_half(b);
    let middle = add(a0 * b1, a1 * b0);
    let low = add(a0 * b0, middle.low << 32);
    Words {
        high: a1 * b1 + (middle.high << 32) + high_half(middle.low) + low.high,
        low: low.low,
    }
}
