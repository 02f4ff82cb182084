// Held credits, and the ons, agent and user lines: refusals 4 and 5.
ghost use Rattle.std.specs.Prelude.{◌≡◌, ℕ, pos};
ghost use Rattle.ints.specs.Range.{outside, eq_z};
ghost use Rattle.rules.specs.Verdict.{Verdict, each_line};
ghost use Rattle.rules.specs.Lines.{bad_amounts, bad_agent, bad_user};
ghost use Rattle.rules.specs.Refusals.{credit_test, lines_before_points};
ghost use Rattle.rules.specs.Answers.{verdict_of};

use crate::refused_if;
use ints::outside;
use rules::{Agent, Kind, MonthLine, Refusal, User};

// 10^11, the limit of amounts, and either way of corrections.
const AMOUNT: i64 = 100_000_000_000;

// 10^17, the limit of held credits.
const CREDIT: i64 = 100_000_000_000_000_000;

// Whether a line's number is its position; k may pass what an i64 holds.
fn is_number(x: i64, k: u64) -> bool
    ensures { result ≡ eq_z x (pos k) }
{
    u64::try_from(x) == Ok(k)
}

// An agent's four amounts.
fn bad_amounts(pb: i64, pv: i64, afs: i64, rfs: i64) -> bool
    ensures { result ≡ bad_amounts pb pv afs rfs }
{
    outside(0, AMOUNT, pb)
        || outside(0, AMOUNT, pv)
        || outside(0, AMOUNT, afs)
        || outside(0, AMOUNT, rfs)
}

// 5 of the agent line at position k.
#[tactic(auto, unfolding(rules::specs::Lines::bad_agent))]
fn bad_agent(k: u64, agent: &Agent) -> bool
    ensures { result ≡ bad_agent k agent.now }
{
    !is_number(agent.number, k)
        || bad_amounts(agent.pb, agent.pv, agent.afs, agent.rfs)
        || outside(-AMOUNT, AMOUNT, agent.pa)
        || outside(-AMOUNT, AMOUNT, agent.ret)
}

#[tactic(auto, unfolding(ints::specs::Range::outside))]
fn bad_kind(x: i64) -> bool
    ensures { result ≡ outside (pos 1) (pos 3) x }
{
    Kind::try_from(x).is_err()
}

// 5 of the user line at position k.
#[tactic(auto, unfolding(rules::specs::Lines::bad_user))]
fn bad_user(k: u64, user: &User) -> bool
    ensures { result ≡ bad_user k user.now }
{
    !is_number(user.number, k)
        || bad_kind(user.kind)
        || outside(-AMOUNT, AMOUNT, user.ret)
        || outside(0, AMOUNT, user.ong)
}

// Each line's test in turn, which is given the line's position from 1: the first that refuses.
fn each_line<T, F: Fn(u64, &T) -> Result<(), Refusal>>(lines: &[T], test: F) -> Result<(), Refusal>
    ghost verdict: { ℕ → T → Verdict }
    requires callable { F.IsAlwaysCallable test }
    requires tells { (k : ℕ) (x : _) (r : _) → F.post test k x r → verdict_of r ≡ verdict k x.now }
    ensures { verdict_of result ≡ each_line verdict 1 lines.now }
{
    for (i, line) in lines.iter().enumerate() {
        test(i as u64 + 1, line)?;
    }
    Ok(())
}

// 4: the first held credit below 0 or above 10^17.
pub fn credits_verdict(credits: &[i64]) -> Result<(), Refusal>
    ensures { verdict_of result ≡ each_line credit_test 1 credits.now }
{
    each_line(credits, |k, credit| {
        refused_if(outside(0, CREDIT, *credit), Refusal::BadCredit(k))
    })
}

// 5 of the ons, agent and user lines, in this order.
#[tactic(auto, unfolding(rules::specs::Refusals::lines_before_points))]
pub fn lines_before_points(line: MonthLine, agents: &[Agent], users: &[User]) -> Result<(), Refusal>
    ensures { verdict_of result ≡ lines_before_points line agents.now users.now }
{
    // the month line has no position
    refused_if(outside(0, AMOUNT, line.ons), Refusal::BadValue(0))?;
    each_line(agents, |k, agent| {
        refused_if(bad_agent(k, agent), Refusal::BadValue(k))
    })?;
    each_line(users, |k, user| {
        refused_if(bad_user(k, user), Refusal::BadValue(k))
    })
}
