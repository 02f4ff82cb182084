// Point lines: refusals 5, 6 and 7, in this order on each line.
ghost use Rattle.std.specs.Prelude.{◌≡◌, true, false, MatchOption, ℤ, pos, length};
ghost use Rattle.ints.specs.Range.{outside};
ghost use Rattle.rules.specs.Lines.{kind_of, bad_band, bad_point, unfit_point};
ghost use Rattle.rules.specs.Kinds.{IsKind};
ghost use Rattle.rules.specs.Refusals.{point_test};
ghost use Rattle.rules.specs.Answers.{verdict_of};

use ints::outside;
use rules::{Kind, Point, Refusal, User};

// Of a tariff, of a discount in percent, of a power.
const TARIFF: i64 = 100_000;

const DISCOUNT: i64 = 100;

const POWER: i64 = 20_000_000;

// A band of a point.
fn bad_band(tariff: i64, discount: i64, contracted: i64, verified: i64) -> bool
    ensures { result ≡ bad_band tariff discount contracted verified }
{
    outside(0, TARIFF, tariff)
        || outside(0, DISCOUNT, discount)
        || outside(0, POWER, contracted)
        || outside(0, POWER, verified)
}

// 5 of a point line.
#[tactic(auto, unfolding(rules::specs::Lines::bad_point))]
fn bad_point(p: Point) -> bool
    ensures { result ≡ bad_point p }
{
    bad_band(p.tp, p.dp, p.mp, p.vp) || bad_band(p.tf, p.df, p.mf, p.vf)
}

// 7 of a point line whose user has this kind: a generator's f column or a distributor's discount that is not 0.
#[tactic(auto, using(crate::proofs::Laws::fits_no_kind), unfolding(rules::specs::Lines::unfit_point))]
fn unfit_point(kind: Option<Kind>, p: Point) -> bool
    ensures { (number : ℤ) → IsKind kind number → result ≡ unfit_point number p }
{
    match kind {
        Some(Kind::Generator) => p.tf != 0 || p.df != 0 || p.mf != 0 || p.vf != 0,
        Some(Kind::Distributor) => p.dp != 0 || p.df != 0,
        Some(Kind::Consumer) | None => false,
    }
}

// The line of the user with this number.
#[tactic(auto, unfolding(ints::specs::Range::outside))]
fn line_of(users: &[User], user: i64) -> Option<&User>
    ensures { MatchOption result (outside (pos 1) (pos (length users.now)) user ≡ true)
        (λ line. (outside (pos 1) (pos (length users.now)) user ≡ false) × (line.now.kind ≡ kind_of users.now user)) }
{
    let i = usize::try_from(user.checked_sub(1)?).ok()?;
    users.get(i)
}

// The number of the kind of the user with this number, 0 where there is none.
#[tactic(auto, using(crate::proofs::Laws::no_kind))]
pub fn kind_of(users: &[User], user: i64) -> i64
    ensures { result ≡ kind_of users.now user }
{
    line_of(users, user).map_or(0, |line| line.kind)
}

// The point line at position k: 5, then 6, then 7.
pub fn point_verdict(users: &[User], k: u64, p: Point) -> Result<(), Refusal>
    ensures { verdict_of result ≡ point_test users.now k p }
{
    if bad_point(p) {
        return Err(Refusal::BadValue(k));
    }
    let user = line_of(users, p.user).ok_or(Refusal::NoSuchUser(k))?;
    if unfit_point(Kind::try_from(user.kind).ok(), p) {
        return Err(Refusal::UnfitPoint(k));
    }
    Ok(())
}
