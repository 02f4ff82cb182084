// What an accepted month writes: the held credits and the table of cells.
ghost use Rattle.rules.specs.Verdict.{Verdict};
ghost use Rattle.rules.specs.Lines.{lines_of};
ghost use Rattle.rules.specs.State.{State};
ghost use Rattle.closing.specs.Written.{Writable, Written};

use charges::month::Bills;
use credits::payees::Payees;
use rules::{Ledger, MonthLines, PAYEES};

// Writes the new held credits and the table, the direct charges in its last row. `held` has one entry for each user, `cells` one for each
// payee and user; which broken cells take the odd cents is free within paper 01, and so is what the work slice holds afterwards.
pub fn write(
    bills: &Bills,
    ledger: Ledger,
    month: MonthLines,
    held: &mut [i64],
    cells: &mut [i64],
    work: &mut [u64],
)
    requires { (st : State) × (short : Verdict)
        × Writable bills.now ledger (lines_of month) held.old cells.old work.old st short }
    ensures { (st : State) (short : Verdict)
        → Writable bills.now ledger (lines_of month.entry) held.old cells.old work.old st short
        → Written st (lines_of month.entry) work.old held.new cells.new work.new }
{
    let n = month.users.len();
    let m = month.agents.len() + 1;
    let mut vc = [0; PAYEES];
    let payees = Payees {
        debits: bills.total,
        last: ledger.month,
        line: month.line,
        agents: month.agents,
    };
    payees.vcs(&mut vc[..m]);
    cells::fill(&vc[..m], &bills.debits[..n], cells, work);
    charges::direct::add(month.users, cells);
    held.copy_from_slice(&bills.credits[..n]);
}
