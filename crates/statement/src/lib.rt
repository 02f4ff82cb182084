// The statement of a month: every charge and every credit that stands behind its table of cells (paper 01, "Charges of a user" and
// "Credits of a payee"). Nothing is closed by it: ledger and held credits stay as they are.
#![tactic(auto)]

mod payees;
mod points;
mod users;

ghost use Rattle.std.specs.Prelude.{◌≡◌, ◌≤◌, List, ℤ, length};
ghost use Rattle.rules.specs.Verdict.{Verdict};
ghost use Rattle.rules.specs.Answers.{verdict_of};
ghost use Rattle.rules.specs.Lines.{lines_of};
ghost use Rattle.rules.specs.State.{State};
ghost use Rattle.rules.specs.Refusals.{count_tests};
ghost use Rattle.rules.specs.Calls.{state_of};
ghost use Rattle.statement.specs.Statement.{short_rooms, States};
ghost use Rattle.statement.specs.Writes.{Statable, StatedRows};

use closing::judge::Judged;
use credits::payees::Payees;
use refusals::counts::{Counts, counts_verdict, long_enough};
use rules::{Ledger, Lent, MonthLines, Refusal, Standing};

// A point: use charge and overrun.
#[derive(Clone, Copy, Debug, Default, PartialEq, Eq)]
pub struct PointRow {
    pub use_charge: i64,
    pub overrun: i64,
}

// A user: EUST, its overruns, ret, VME, CPV, the credit held before, n, VD, the credit held after, direct charge.
#[derive(Clone, Copy, Debug, Default, PartialEq, Eq)]
pub struct UserRow {
    pub eust: i64,
    pub overruns: i64,
    pub ret: i64,
    pub vme: i64,
    pub cpv: i64,
    pub held_before: i64,
    pub n: i64,
    pub vd: i64,
    pub held_after: i64,
    pub ong: i64,
}

// A payee: VMST, VMPA, VMANT, ret, VC, and the shared part of VC.
#[derive(Clone, Copy, Debug, Default, PartialEq, Eq)]
pub struct PayeeRow {
    pub vmst: i64,
    pub vmpa: i64,
    pub vmant: i64,
    pub ret: i64,
    pub vc: i64,
    pub shared: i64,
}

// How many entries the slices have that a statement is lent: held credits, and the rows of points, users and payees.
#[derive(Clone, Copy)]
struct RowRooms {
    held: u64,
    points: u64,
    users: u64,
    payees: u64,
}

// 2: the first slice that is too short, for a ledger whose counts passed 1; month and credits play no part.
#[tactic(auto, unfolding(crate::specs::Statement::short_rooms))]
fn short_rooms(ledger: Ledger, points: u64, rooms: RowRooms) -> Result<(), Refusal>
    requires { ledger.agents ≤ 256 }
    ensures { (credits : List ℤ) → verdict_of result ≡ short_rooms (state_of ledger credits) rooms points }
{
    long_enough(Lent::Held, rooms.held, ledger.users)?;
    long_enough(Lent::PointRows, rooms.points, points)?;
    long_enough(Lent::UserRows, rooms.users, ledger.users)?;
    long_enough(Lent::PayeeRows, rooms.payees, ledger.agents + 1)
}

// 1 and 2, of the counts of its lines and the lengths of its slices; the held credits play no part.
#[tactic(auto, unfolding(rules::specs::Refusals::count_tests))]
fn stating_verdict(ledger: Ledger, month: MonthLines, rooms: RowRooms) -> Result<(), Refusal>
    ensures { (credits : List ℤ) → let l = lines_of month.entry in verdict_of result
        ≡ count_tests (state_of ledger credits) (short_rooms (state_of ledger credits) rooms (length l.points))
        (length l.users) (length l.agents) (length l.points) }
{
    let counts = Counts::of(month);
    counts_verdict(ledger, counts)?;
    short_rooms(ledger, counts.points, rooms)
}

// Writes every row of a month that breaks no limit, and answers its balance. `held` has one entry for each user; every slice of rows
// is as long as its rows are many.
fn write(
    standing: Standing,
    month: MonthLines,
    judged: &Judged,
    point_rows: &mut [PointRow],
    user_rows: &mut [UserRow],
    payee_rows: &mut [PayeeRow],
) -> i64
    requires { (st : State) × (short : Verdict)
        × Statable standing.ledger standing.held.now (lines_of month) judged.now.sums judged.now.bills point_rows.old user_rows.old payee_rows.old st short }
    ensures { (st : State) (short : Verdict)
        → Statable standing.entry.ledger standing.entry.held.now (lines_of month.entry) judged.now.sums judged.now.bills
        point_rows.old user_rows.old payee_rows.old st short
        → StatedRows st (lines_of month.entry) result point_rows.new user_rows.new payee_rows.new }
{
    points::rows(month.users, month.points, point_rows);
    let pv = credits::columns::pv_total(month.agents);
    users::state_users(month.users, judged, pv, standing.held, user_rows);
    let payees = Payees {
        debits: judged.bills.total,
        last: standing.ledger.month,
        line: month.line,
        agents: month.agents,
    };
    payees::state_payees(&payees, charges::direct::total(month.users), payee_rows)
}

// Every amount of a month: refusals 1 to 10 with nothing written, or a row for each point, user and payee, and the balance. Entries
// beyond the rows stay.
pub fn state(
    ledger: Ledger,
    held: &[i64],
    month: MonthLines,
    point_rows: &mut [PointRow],
    user_rows: &mut [UserRow],
    payee_rows: &mut [PayeeRow],
) -> Result<i64, Refusal>
    ensures { States ledger held.now (lines_of month.entry) point_rows.old user_rows.old payee_rows.old
        result point_rows.new user_rows.new payee_rows.new }
{
    let rooms = RowRooms {
        held: held.len() as u64,
        points: point_rows.len() as u64,
        users: user_rows.len() as u64,
        payees: payee_rows.len() as u64,
    };
    let first = stating_verdict(ledger, month, rooms);
    let judged = closing::judge::judge(first, Standing { ledger, held }, month)?;
    let n = month.points.len();
    let u = month.users.len();
    let m = month.agents.len() + 1;
    let one_each = Standing {
        ledger,
        held: &held[..u],
    };
    Ok(write(
        one_each,
        month,
        &judged,
        &mut point_rows[..n],
        &mut user_rows[..u],
        &mut payee_rows[..m],
    ))
}
