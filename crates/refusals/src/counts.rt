// Counts of lines and lengths of slices: refusals 1 and 2.
ghost use Rattle.std.specs.Prelude.{◌≡◌, ◌||◌, List, ◌≤◌, ℤ, length, ltb};
ghost use Rattle.rules.specs.Verdict.{when};
ghost use Rattle.rules.specs.Refusals.{bad_users, bad_agents, bad_counts, short_slices, count_tests, opening_refusal};
ghost use Rattle.rules.specs.Answers.{lent_place, verdict_of};
ghost use Rattle.rules.specs.Calls.{state_of};

use crate::refused_if;
use rules::{AGENTS, Ledger, Lengths, Lent, MonthLines, POINTS, Refusal, USERS};

// How many lines a month has of each kind.
#[derive(Clone, Copy)]
pub struct Counts {
    pub users: u64,
    pub agents: u64,
    pub points: u64,
}

impl Counts {
    // No `From`: its law would stand as a function in the impl, no plainer than this clause.
    pub fn of(month: MonthLines) -> Counts
        ensures { result ≡ record { users = length month.entry.users.now; agents = length month.entry.agents.now; points = length month.entry.points.now } }
    {
        Counts {
            users: month.users.len() as u64,
            agents: month.agents.len() as u64,
            points: month.points.len() as u64,
        }
    }
}

// 2 of one slice: whether it has as many entries as are needed.
pub fn long_enough(lent: Lent, entries: u64, needed: u64) -> Result<(), Refusal>
    ensures { verdict_of result ≡ when (ltb entries needed) 2 (lent_place lent) }
{
    refused_if(entries < needed, Refusal::ShortSlice(lent))
}

// 1, of counts alone: one outside 1 to 512 users, 1 to 256 agents.
fn bad_opening_counts(users: u64, agents: u64) -> bool
    ensures { result ≡ (bad_users users || bad_agents agents) }
{
    !(1..=USERS as u64).contains(&users) || !(1..=AGENTS as u64).contains(&agents)
}

// 1 and 2 at an opening.
#[tactic(auto, unfolding(rules::specs::Refusals::opening_refusal))]
pub fn opening_verdict(users: u64, agents: u64, held: u64) -> Result<(), Refusal>
    ensures { verdict_of result ≡ opening_refusal users agents held }
{
    if bad_opening_counts(users, agents) {
        return Err(Refusal::BadCounts);
    }
    long_enough(Lent::Held, held, users)
}

// 1 of a month, by the counts of its lines; the held credits play no part.
#[tactic(auto, unfolding(rules::specs::Refusals::bad_counts))]
fn bad_counts(ledger: Ledger, counts: Counts) -> bool
    ensures { (held : List ℤ) → result ≡ bad_counts (state_of ledger held) counts.users counts.agents counts.points }
{
    bad_opening_counts(counts.users, counts.agents)
        || counts.points > POINTS as u64
        || counts.users != ledger.users
        || counts.agents != ledger.agents
        || ledger.month != 0 && crate::months::impossible_month(ledger.month)
}

pub fn counts_verdict(ledger: Ledger, counts: Counts) -> Result<(), Refusal>
    ensures { (credits : List ℤ) → verdict_of result
        ≡ when (bad_counts (state_of ledger credits) counts.users counts.agents counts.points) 1 0 }
{
    refused_if(bad_counts(ledger, counts), Refusal::BadCounts)
}

// 2: the first slice that is too short, for a ledger whose counts passed 1; the credits play no part.
#[tactic(auto, unfolding(rules::specs::Refusals::short_slices))]
fn short_slices(ledger: Ledger, lengths: Lengths) -> Result<(), Refusal>
    requires { (ledger.users ≤ 512) × (ledger.agents ≤ 256) }
    ensures { (credits : List ℤ) → verdict_of result ≡ short_slices (state_of ledger credits) lengths }
{
    let payees = ledger.agents + 1;
    let needed = payees * ledger.users;
    long_enough(Lent::Held, lengths.held, ledger.users)?;
    long_enough(Lent::Cells, lengths.cells, needed)?;
    let work = 2 * needed + 4 * (payees + ledger.users);
    long_enough(Lent::Work, lengths.work, work)
}

// 1 and 2 at a closing, of the counts of its lines and the lengths of its slices; the held credits play no part.
#[tactic(auto, unfolding(rules::specs::Refusals::count_tests))]
pub fn closing_verdict(ledger: Ledger, counts: Counts, lengths: Lengths) -> Result<(), Refusal>
    ensures { (credits : List ℤ) → verdict_of result
        ≡ count_tests (state_of ledger credits) (short_slices (state_of ledger credits) lengths)
        counts.users counts.agents counts.points }
{
    counts_verdict(ledger, counts)?;
    short_slices(ledger, lengths)
}
