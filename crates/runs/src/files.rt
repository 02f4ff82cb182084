// File after file (paper 01, "The month file"): the first opens the ledger, and each is closed and printed. A refusal by reading or opening
// ends the run; a refused closing does not, and leaves the ledger as it was.
ghost use Rattle.std.specs.Prelude.{OnOk};
ghost use Rattle.format.specs.Blocks.{slices};
ghost use Rattle.format.specs.Reading.{reading};
ghost use Rattle.runs.specs.Runs.{Advances, Begins, GoesOn};

use crate::books::Books;
use crate::months::{Lines, Month};
use crate::report::{Report, Stop};
use monthfile::reader::Reader;
use rules::Refusal;
use std::io;

// A refusal is printed in place of what was asked for.
fn or_refusal<R: io::Print>(rt: &R, done: Result<(), Stop>) -> io::Result<()>
    ensures { GoesOn done result }
{
    done.or_else(|stop| match stop {
        Stop::Refused(refusal) => rt.println(refusal),
        Stop::Failed(error) => Err(error),
    })
}

// The month of the next file, and the ledger for it: the first file opens it, with its counts; a later one finds it open.
fn begin<'l>(
    lines: &'l mut Lines,
    reader: &mut Reader<'_>,
    books: &mut Books,
) -> Result<Month<'l>, Refusal>
    ensures begins { Begins (reading (slices 16 64 256) reader.old.text.now reader.old.at)
        result reader.old reader.new books.old books.new }
    ensures advances { OnOk result (Advances reader.old reader.new) }
{
    let first = reader.at == 0;
    let month = lines.read(reader)?;
    if first {
        books.open(month.lines.users.len(), month.lines.agents.len())?;
    }
    Ok(month)
}

// Each file begins further on than the one before, so that the run ends.
fn each_file<P: Report, R: io::Print>(rt: &R, text: &[u8]) -> Result<(), Stop> {
    let mut lines = Lines::new();
    let mut books = Books::new();
    let mut reader = Reader { text, at: 0 };
    loop {
        let month = begin(&mut lines, &mut reader, &mut books)?;
        or_refusal(rt, P::month(rt, &mut books, month))?;
        if text.len() <= reader.at {
            return Ok(());
        }
    }
}

pub(crate) fn print_months<P: Report, R: io::Print>(rt: &R, text: &[u8]) -> io::Result<()> {
    or_refusal(rt, each_file::<P, R>(rt, text))
}
