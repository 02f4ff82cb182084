// Why a month comes back (paper 01, "Why a month comes back"), or every user's amounts. Nothing that was lent is written.
ghost use Rattle.std.specs.Prelude.{◌≤◌, ◌≡◌, length};
ghost use Rattle.rules.specs.Verdict.{Verdict};
ghost use Rattle.rules.specs.Answers.{verdict_of};
ghost use Rattle.rules.specs.Lines.{lines_of};
ghost use Rattle.rules.specs.State.{State};
ghost use Rattle.rules.specs.Refusals.{state_tests};
ghost use Rattle.rules.specs.Calls.{state_of};
ghost use Rattle.closing.specs.Judged.{Begun, Weighable, Scans, Weighs, Judges};

use charges::month::Bills;
use charges::scan::Sums;
use rules::{MonthLine, MonthLines, Refusal, Standing};

// What is found of a month that breaks no limit: the sums of its points by user, and every user's amounts.
#[derive(Clone, Copy)]
pub struct Judged {
    pub sums: Sums,
    pub bills: Bills,
}

// 3 and 4: the month, then the held credits, the first entry for each user.
#[tactic(auto, unfolding(rules::specs::Refusals::state_tests))]
fn state_verdict(standing: Standing, line: MonthLine) -> Result<(), Refusal>
    requires { standing.ledger.users ≤ length standing.held.now }
    ensures { verdict_of result ≡ state_tests (state_of standing.entry.ledger standing.entry.held.now) line }
{
    refusals::months::month_verdict(standing.ledger.month, line.month)?;
    let n = standing.ledger.users as usize;
    refusals::lines::credits_verdict(&standing.held[..n])
}

// 5 to 7, and the sums of the points.
#[tactic(auto, unfolding(rules::specs::Refusals::line_tests))]
fn lines_verdict(month: MonthLines) -> Result<Sums, Refusal>
    ensures { Scans (lines_of month.entry) result }
{
    refusals::lines::lines_before_points(month.line, month.agents, month.users)?;
    Ok(charges::scan::scan(month.points, month.users)?)
}

// 8, 9 and 10 of a month whose lines have passed, and its amounts. `held` has one entry for each user.
fn weighed(held: &[i64], month: MonthLines, sums: &Sums) -> Result<Bills, Refusal>
    requires { (st : State) × Weighable held.now (lines_of month) sums.now st }
    ensures { (st : State) → Weighable held.now (lines_of month.entry) sums.now st → Weighs st (lines_of month.entry) result }
{
    let uses = &sums.uses[..month.users.len()];
    let pb = credits::columns::pb_total(month.agents);
    let pv = credits::columns::pv_total(month.agents);
    charges::sums::weights_verdict(pb, pv, ints::total(uses))?;
    let bills = charges::month::bill(month.users, sums, pv, held);
    charges::sums::debits_verdict(bills.total)?;
    Ok(bills)
}

// 1 to 10, and the amounts of a month that breaks no limit. `first` is the verdict of 1 and 2, which look at the counts and at what a
// call is lent: closing and statement are lent different slices. It may be a refusal: that 1 and 2 are passed is not asked.
pub fn judge(
    first: Result<(), Refusal>,
    standing: Standing,
    month: MonthLines,
) -> Result<Judged, Refusal>
    requires { (short : Verdict) × Begun standing.ledger standing.held.now (lines_of month) first short }
    ensures { (short : Verdict) → Begun standing.entry.ledger standing.entry.held.now (lines_of month.entry) first short
        → Judges standing.entry.ledger standing.entry.held.now short (lines_of month.entry) result }
{
    first?;
    state_verdict(standing, month.line)?;
    let sums = lines_verdict(month)?;
    let n = standing.ledger.users as usize;
    let bills = weighed(&standing.held[..n], month, &sums)?;
    Ok(Judged { sums, bills })
}
