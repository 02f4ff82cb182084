// The exact running share of an amount over weights (paper 01, "Units and arithmetic" and "The month file").
#![tactic(auto)]

ghost use Rattle.std.specs.Prelude.{◌≡◌, ◌*◌, ◌<◌, ◌≤◌, pos, ◌*ℤ◌};
ghost use Rattle.ints.specs.Bridge.{abs};
ghost use Rattle.ints.specs.Floor.{floor};
ghost use Rattle.wide.specs.Exact.{divided};
ghost use Rattle.share.specs.Answer.{bad_sums, sharing, answer_of, seen_by_c};
ghost use Rattle.share.specs.Running.{running_share};
ghost use Rattle.share.specs.Filling.{Fillable};

pub mod weights;

use wide::Divided;

// 10^17, the limit of amounts and of weight sums.
const LIMIT: i64 = 100_000_000_000_000_000;

// What C sees of a refusal is this less its place.
const REFUSED: i64 = -1_000_000_000_000_000_000;

// Why there is no part: which argument is out of its limits.
#[derive(Clone, Copy, Debug, PartialEq, Eq)]
pub enum BadShare {
    Amount,
    Total,
    Sums,
}

// a × t over w: t is at most w, so the quotient is at most a.
fn scaled(a: u64, t: u64, w: u64) -> Divided
    requires { (t ≤ w) × (0 < w) }
    ensures { result ≡ divided (a * t) w }
{
    wide::quotient::of_product(a, t, w).unwrap()
}

// p × t over w rounded down. Both signs are worked out and one is taken, since a branch on the sign costs more.
fn floor_of(p: i64, t: u64, w: u64) -> i64
    requires { (abs p ≤ 100000000000000000) × (t ≤ w) × (0 < w) }
    ensures { result ≡ floor (p *ℤ pos t) (pos w) }
{
    let d = scaled(p.unsigned_abs(), t, w);
    let up = (d.quot + u64::from(d.rem > 0)) as i64;
    if p < 0 { -up } else { d.quot as i64 }
}

// Whether the sums break 0 <= before <= through <= w.
fn bad_sums(before: i64, through: i64, w: i64) -> bool
    ensures { result ≡ bad_sums before through w }
{
    before < 0 || through < before || w < through
}

// The part of p between the weight sums `before` and `through` of w.
pub fn part(p: i64, before: i64, through: i64, w: i64) -> Result<i64, BadShare>
    ensures { answer_of result ≡ sharing p before through w }
{
    if ints::outside(-LIMIT, LIMIT, p) {
        return Err(BadShare::Amount);
    }
    if ints::outside(1, LIMIT, w) {
        return Err(BadShare::Total);
    }
    if bad_sums(before, through, w) {
        return Err(BadShare::Sums);
    }
    let upper = floor_of(p, through as u64, w as u64);
    let lower = floor_of(p, before as u64, w as u64);
    Ok(upper - lower)
}

// Writes the running share of p over the weights, whose sum is `total`. Each floor is worked out once.
pub fn fill(p: i64, total: i64, weights: &[i64], parts: &mut [i64])
    requires { Fillable p total weights.now parts.old }
    ensures { parts.new ≡ running_share p weights.now }
{
    let mut through = 0;
    let mut lower = 0;
    // by index: of what a zipped `iter_mut` writes a proof learns nothing
    for (i, weight) in weights.iter().enumerate() {
        through += *weight;
        let upper = floor_of(p, through as u64, total as u64);
        parts[i] = upper - lower;
        lower = upper;
    }
}

// What C sees of an answer.
pub fn seen_by_c(answer: Result<i64, BadShare>) -> i64
    ensures { result ≡ seen_by_c (answer_of answer) }
{
    match answer {
        Ok(x) => x,
        Err(BadShare::Amount) => REFUSED - 1,
        Err(BadShare::Total) => REFUSED - 2,
        Err(BadShare::Sums) => REFUSED - 3,
    }
}
