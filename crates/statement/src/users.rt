// The rows of the users, from the sums of their points and from the bills.
ghost use Rattle.std.specs.Prelude.{◌≡◌, length};
ghost use Rattle.rules.specs.Lines.{Lines};
ghost use Rattle.rules.specs.State.{State};
ghost use Rattle.charges.specs.Month.{Month, Billed};
ghost use Rattle.statement.specs.Statement.{user_rows};
ghost use Rattle.statement.specs.Columns.{ColumnsFit, user_rows_by};

use crate::UserRow;
use closing::judge::Judged;
use rules::{USERS, User};

// What users are charged and owe, column by column: an entry for each user. Columns, as `charges` has them.
#[derive(Clone, Copy)]
pub struct Columns<'a> {
    pub uses: &'a [i64],
    pub overruns: &'a [i64],
    pub vme: &'a [i64],
    pub cpv: &'a [i64],
    pub held: &'a [i64],
    pub debits: &'a [i64],
    pub credits: &'a [i64],
}

// Writes a row for each user, from its line and the columns.
fn rows(users: &[User], columns: Columns, out: &mut [UserRow])
    requires { ColumnsFit users.now columns out.old }
    ensures { out.new ≡ user_rows_by users.now columns.entry }
{
    // by index: of what a zipped `iter_mut` writes a proof learns nothing
    for (i, user) in users.iter().enumerate() {
        let due = charges::month::net(columns.vme[i], columns.cpv[i], columns.held[i]);
        out[i] = UserRow {
            eust: columns.uses[i],
            overruns: columns.overruns[i],
            ret: user.ret,
            vme: columns.vme[i],
            cpv: columns.cpv[i],
            held_before: columns.held[i],
            n: due,
            vd: columns.debits[i],
            held_after: columns.credits[i],
            ong: user.ong,
        };
    }
}

// Writes the rows of a month that breaks no limit: `judged` is what was found of it, pv the sum of all pv.
#[tactic(auto, using(charges::proofs::Amounts::few))]
pub(crate) fn state_users(
    users: &[User],
    judged: &Judged,
    pv: i64,
    held: &[i64],
    out: &mut [UserRow],
)
    requires { ((st : State) × (l : Lines) × Month users.now judged.now.sums pv held.now st l × Billed (length users.now) st l judged.now.bills)
        × (length out.old ≡ length users.now) }
    ensures { (st : State) (l : Lines)
        → Month users.now judged.now.sums pv held.now st l
        → Billed (length users.now) st l judged.now.bills
        → out.new ≡ user_rows st l }
{
    let n = users.len();
    let uses = &judged.sums.uses[..n];
    let overruns = &judged.sums.overruns[..n];
    // room for the most users: nothing is allocated
    let mut all_vme = [0; USERS];
    let mut all_cpv = [0; USERS];
    let vme = &mut all_vme[..n];
    let cpv = &mut all_cpv[..n];
    charges::month::charge(users, uses, overruns, vme);
    charges::month::compensate(pv, uses, cpv);
    let columns = Columns {
        uses,
        overruns,
        vme,
        cpv,
        held,
        debits: &judged.bills.debits[..n],
        credits: &judged.bills.credits[..n],
    };
    rows(users, columns, out);
}
