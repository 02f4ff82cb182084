// The ledger with its held credits, and what else a closing writes.
ghost use Rattle.rules.specs.Calls.{Opens, Closes};
ghost use Rattle.rules.specs.Lines.{lines_of};

use crate::months::{PAYEES, USERS};
use rules::{Ledger, MonthLines, Refusal};

// Paper 01's needs: a cell for each payee and user, and of work twice that and 4 for each payee and user.
const CELLS: usize = PAYEES * USERS;

const WORK: usize = 2 * CELLS + 4 * (PAYEES + USERS);

// Arrays, since nothing is allocated.
#[derive(Drop)]
pub(crate) struct Books {
    pub ledger: Ledger,
    pub held: [i64; USERS],
    pub cells: [i64; CELLS],
    pub work: [u64; WORK],
}

impl Books {
    // With no ledger open.
    pub(crate) fn new() -> Books {
        Books {
            ledger: Ledger::default(),
            held: [0; USERS],
            cells: [0; CELLS],
            work: [0; WORK],
        }
    }

    // Opens the ledger for these counts.
    pub(crate) fn open(&mut self, users: usize, agents: usize) -> Result<(), Refusal>
        ensures { Opens users agents self.old.held
            (record { answer = result; ledger = self.new.ledger }) self.new.held }
    {
        let opened = ledger::open(users as u64, agents as u64, &mut self.held);
        self.ledger = opened.ledger;
        opened.answer
    }

    // Closes a month; one that is refused changes nothing.
    pub(crate) fn close(&mut self, month: MonthLines<'_>) -> Result<(), Refusal>
        ensures { Closes self.old.ledger self.old.held (lines_of month.entry) self.old.cells self.old.work
            (record { answer = result; ledger = self.new.ledger })
            self.new.held self.new.cells self.new.work }
    {
        let closed = ledger::close(
            self.ledger,
            &mut self.held,
            month,
            &mut self.cells,
            &mut self.work,
        );
        self.ledger = closed.ledger;
        closed.answer
    }
}
