// Who receives, and a month's cells.
use crate::books::Books;
use crate::months::Month;
use std::{fmt, io, iter};

// An agent by its number, ONS, or the user itself, which holds a credit.
#[derive(Clone, Copy)]
pub(crate) enum Payee {
    Agent(usize),
    Ons,
    Held,
}

impl fmt::Display for Payee {
    fn fmt<W: fmt::Write>(&self, f: &mut fmt::Formatter<W>) -> fmt::Result {
        match self {
            Payee::Agent(number) => write!(f, "{number}"),
            Payee::Ons => write!(f, "ons"),
            Payee::Held => write!(f, "held"),
        }
    }
}

// Prints each payee's row of a month's cells: the agents' in order, then ONS's. There is a row for each, so that `zip` leaves none out.
pub(crate) fn each_row<F: Fn(Payee, &[i64]) -> io::Result<()>>(
    books: &Books,
    month: Month<'_>,
    print: F,
) -> io::Result<()>
    requires { F.IsAlwaysCallable print }
{
    let agents = month.lines.agents.len();
    let payees = (1..=agents).map(Payee::Agent).chain(iter::once(Payee::Ons));
    // a month has users; without any there would be no cell
    let rows = books.cells.chunks(month.lines.users.len().max(1));
    for (payee, row) in payees.zip(rows) {
        print(payee, row)?;
    }
    Ok(())
}
