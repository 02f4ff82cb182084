// Months: refusal 3, and the last closed month of refusal 1.
ghost use Rattle.std.specs.Prelude.{◌≡◌};
ghost use Rattle.rules.specs.Verdict.{when};
ghost use Rattle.rules.specs.Calendar.{impossible_month};
ghost use Rattle.rules.specs.Refusals.{bad_month};
ghost use Rattle.rules.specs.Answers.{verdict_of};

use crate::refused_if;
use ints::outside;
use rules::Refusal;

// No month: outside 200001 to 209912, or mm outside 01 to 12. The range comes first: past it % is mm, as m is above 0.
#[tactic(auto, using(crate::proofs::Laws::mm), unfolding(rules::specs::Calendar::impossible_month, ints::specs::Range::outside))]
pub(crate) fn impossible_month(m: i64) -> bool
    ensures { result ≡ impossible_month m }
{
    outside(200_001, 209_912, m) || outside(1, 12, m % 100)
}

// 3: an impossible month, or one not later than the last closed.
#[tactic(auto, unfolding(rules::specs::Refusals::bad_month))]
pub fn month_verdict(last: i64, month: i64) -> Result<(), Refusal>
    ensures { verdict_of result ≡ when (bad_month last month) 3 0 }
{
    let bad = impossible_month(month) || month <= last;
    refused_if(bad, Refusal::BadMonth)
}
