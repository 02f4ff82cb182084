// One amount over many weights of one sum. A product of one word, as most are, takes one plain division; for the others w divides once,
// and each weight takes products only.
ghost use Rattle.std.specs.Prelude.{◌≡◌, ◌*◌, ◌<◌, ◌≤◌, pos, ◌*ℤ◌};
ghost use Rattle.ints.specs.Bridge.{abs};
ghost use Rattle.ints.specs.Rest.{Split};
ghost use Rattle.wide.specs.Exact.{divided};
ghost use Rattle.share.specs.Rate.{AnyRated, Rated, Weight};

use super::scaled;
use wide::Divided;
use wide::product::multiply;

// An amount over w, divided once for all its weights: its size is whole times w and part, and part over w is a fraction of 2^63.
#[derive(Clone, Copy)]
pub struct AnyRate {
    pub amount: i64,
    pub w: u64,
    whole: u64,
    part: u64,
    fraction: u64,
    ghost rated: { AnyRated amount w whole part fraction },
}

impl AnyRate {
    pub fn of(amount: i64, w: u64) -> AnyRate
        requires amount { abs amount ≤ 100000000000000000 }
        requires w { 0 < w }
        ensures amount { result.amount ≡ amount }
        ensures w { result.w ≡ w }
    {
        let size = amount.unsigned_abs();
        let part = size % w;
        let d = scaled(0x8000_0000_0000_0000, part, w);
        AnyRate {
            amount,
            w,
            whole: size / w,
            part,
            fraction: d.quot,
        }
    }

    // part × t over w: the fraction's product is the quotient or one less, so the low words tell what it leaves.
    fn part_at(self, t: u64) -> Divided
        requires { Weight t self.w }
        ensures { result ≡ divided (self.part * t) self.w }
    {
        let q = multiply(self.fraction, 2 * t);
        let n = multiply(self.part, t);
        let y = multiply(q.high, self.w);
        let r = n.low.wrapping_sub(y.low);
        if r < self.w {
            Divided {
                quot: q.high,
                rem: r,
            }
        } else {
            Divided {
                quot: q.high + 1,
                rem: r - self.w,
            }
        }
    }

    // The size × t over w.
    fn size_at(self, t: u64) -> Divided
        requires { Weight t self.w }
        ensures { result ≡ divided (abs self.amount * t) self.w }
    {
        let n = multiply(self.amount.unsigned_abs(), t);
        if n.high == 0 {
            return Divided {
                quot: n.low / self.w,
                rem: n.low % self.w,
            };
        }
        let d = self.part_at(t);
        Divided {
            quot: self.whole * t + d.quot,
            rem: d.rem,
        }
    }

    // The amount × t over w, rounded down: what is below 0 goes by its size, and a remainder takes it one further down.
    pub fn at(self, t: u64) -> Divided<i64>
        requires { Weight t self.w }
        ensures { Split (self.amount *ℤ pos t) self.w result.quot result.rem }
    {
        let d = self.size_at(t);
        let q = d.quot as i64;
        if self.amount >= 0 {
            Divided {
                quot: q,
                rem: d.rem,
            }
        } else if d.rem == 0 {
            Divided { quot: -q, rem: 0 }
        } else {
            Divided {
                quot: -q - 1,
                rem: self.w - d.rem,
            }
        }
    }
}

// The same over a sum within its limit, as a month's is.
#[derive(Clone, Copy)]
pub struct Rate {
    pub amount: i64,
    pub w: u64,
    whole: u64,
    part: u64,
    fraction: u64,
    ghost rated: { Rated amount w whole part fraction },
}

impl Rate {
    pub fn of(amount: i64, w: u64) -> Rate
        requires amount { abs amount ≤ 100000000000000000 }
        requires w { (0 < w) × (w ≤ 100000000000000000) }
        ensures amount { result.amount ≡ amount }
        ensures w { result.w ≡ w }
    {
        let rate = AnyRate::of(amount, w);
        Rate {
            amount: rate.amount,
            w: rate.w,
            whole: rate.whole,
            part: rate.part,
            fraction: rate.fraction,
        }
    }

    pub fn at(self, t: u64) -> Divided<i64>
        requires { t ≤ self.w }
        ensures { Split (self.amount *ℤ pos t) self.w result.quot result.rem }
    {
        let rate = AnyRate {
            amount: self.amount,
            w: self.w,
            whole: self.whole,
            part: self.part,
            fraction: self.fraction,
        };
        rate.at(t)
    }
}
