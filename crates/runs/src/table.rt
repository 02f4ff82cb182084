// The report of `settle` (paper 01, "The month file"): a closed month's cells, payee by payee, and the new held credits.
use crate::books::Books;
use crate::line::{Line, write_lines};
use crate::months::Month;
use crate::payees::{Payee, each_row};
use crate::report::{Report, Stop};
use std::fmt::Write;
use std::io;

pub(crate) struct Table;

impl Report for Table {
    const PROGRAM: &'static str = "settle";

    const COLUMNS: &'static str = "month,payee,user,cents";

    fn month<R: io::Print>(rt: &R, books: &mut Books, month: Month<'_>) -> Result<(), Stop> {
        books.close(month.lines)?;
        Ok(print_table(rt, books, month)?)
    }
}

fn print_row<R: io::Print>(rt: &R, month: i64, payee: Payee, cents: &[i64]) -> io::Result<()> {
    let mut head = Line::new();
    write!(head, "{month},{payee},")?;
    write_lines(rt, head, ",", cents)
}

fn print_table<R: io::Print>(rt: &R, books: &Books, month: Month<'_>) -> io::Result<()> {
    let yyyymm = month.lines.line.month;
    let print = |payee: Payee, cents: &[i64]| print_row(rt, yyyymm, payee, cents);
    each_row(books, month, &print)?;
    print(Payee::Held, &books.held[..month.lines.users.len()])
}
