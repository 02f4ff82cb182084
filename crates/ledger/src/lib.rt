// The ledger (paper 01, "The ledger"): opening, and closing a month. What is proved of every list of closings stands in proofs/Demand.
#![tactic(auto)]

ghost use Rattle.rules.specs.Lines.{lines_of};
ghost use Rattle.rules.specs.Calls.{Opens, Closes};

use refusals::counts::{Counts, closing_verdict, opening_verdict};
use rules::{Ledger, Lengths, MonthLines, Outcome, Standing};

// Opens a ledger for these counts: the first entry per user becomes 0, entries beyond stay. A refused opening changes nothing.
pub fn open(users: u64, agents: u64, held: &mut [i64]) -> Outcome
    ensures { Opens users agents held.old result held.new }
{
    if let Err(refusal) = opening_verdict(users, agents, held.len() as u64) {
        return Outcome {
            answer: Err(refusal),
            ledger: Ledger::default(),
        };
    }
    held[..users as usize].fill(0);
    Outcome {
        answer: Ok(()),
        ledger: Ledger {
            users,
            agents,
            month: 0,
        },
    }
}

// Closes a month: refusals 1 to 10 with nothing changed, or the new held credits, the table of cells and the ledger with this month.
pub fn close(
    ledger: Ledger,
    held: &mut [i64],
    month: MonthLines,
    cells: &mut [i64],
    work: &mut [u64],
) -> Outcome
    ensures { Closes ledger held.old (lines_of month.entry) cells.old work.old
        result held.new cells.new work.new }
{
    let counts = Counts::of(month);
    let lengths = Lengths {
        held: held.len() as u64,
        cells: cells.len() as u64,
        work: work.len() as u64,
    };
    let first = closing_verdict(ledger, counts, lengths);
    match closing::judge::judge(first, Standing { ledger, held }, month) {
        Err(refusal) => Outcome {
            answer: Err(refusal),
            ledger,
        },
        Ok(judged) => {
            let u = month.users.len();
            let c = (month.agents.len() + 1) * u;
            closing::write::write(
                &judged.bills,
                ledger,
                month,
                &mut held[..u],
                &mut cells[..c],
                work,
            );
            Outcome {
                answer: Ok(()),
                ledger: Ledger {
                    month: month.line.month,
                    ..ledger
                },
            }
        }
    }
}
