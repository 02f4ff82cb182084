// The limits of what a call is handed (paper 01, "Why a month comes back"): refusals 1 to 7 as tests, each equal to its definition
// in `rules`.
#![tactic(auto)]

ghost use Rattle.std.specs.Prelude.{◌≡◌};
ghost use Rattle.rules.specs.Verdict.{when};
ghost use Rattle.rules.specs.Answers.{number_of, place_of, verdict_of};

use rules::Refusal;

pub mod counts;
pub mod lines;
pub mod months;
pub mod points;

// This refusal, if a test says that it holds.
fn refused_if(bad: bool, refusal: Refusal) -> Result<(), Refusal>
    ensures { verdict_of result ≡ when bad (number_of refusal) (place_of refusal) }
{
    if bad {
        return Err(refusal);
    }
    Ok(())
}
