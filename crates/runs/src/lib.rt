// The programs over month files (paper 01, "The month file"). Each reads standard input whole and closes file after file; they differ in
// what they print of a month.
//   input    standard input, up to its limit
//   files    file after file
//   months   a month's lines, and the room that they are read into
//   books    the ledger with its held credits, and what else a closing writes
//   payees   who receives, and the rows of a month's cells
//   line     a line of a month
//   report   what a program is called and what it prints
//   table    the report of `settle`: cells and held credits
//   amounts  the report of `consulta`: every amount of a month
#![tactic(auto)]

mod amounts;
mod books;
mod files;
mod input;
mod line;
mod months;
mod payees;
mod report;
mod table;

use crate::amounts::Amounts;
use crate::report::Report;
use crate::table::Table;
use rules::Refusal;
use std::{fmt, io};

// Who bills whom.
pub fn settle<R: io::Input + io::Print + io::Eprint>(rt: &R) {
    run::<Table, R>(rt)
}

// Every amount.
pub fn consulta<R: io::Input + io::Print + io::Eprint>(rt: &R) {
    run::<Amounts, R>(rt)
}

// What failed, and why.
#[derive(Drop)]
enum Failure {
    Reading(io::Error),
    Writing(io::Error),
}

impl fmt::Display for Failure {
    fn fmt<W: fmt::Write>(&self, f: &mut fmt::Formatter<W>) -> fmt::Result {
        match self {
            Failure::Reading(error) => write!(f, "standard input: {error}"),
            Failure::Writing(error) => write!(f, "standard output: {error}"),
        }
    }
}

// A whole run. What fails is told on standard error; a failure to say so is not.
fn run<P: Report, R: io::Input + io::Print + io::Eprint>(rt: &R) {
    if let Err(failure) = print_report::<P, R>(rt) {
        let _ = eprintln!(rt; "{}: {failure}", P::PROGRAM);
    }
}

// The names, then what is printed of each month.
fn print_report<P: Report, R: io::Input + io::Print>(rt: &R) -> Result<(), Failure> {
    rt.println(P::COLUMNS).map_err(Failure::Writing)?;
    let mut buffer = input::buffer();
    let input = input::read_all(rt, &mut buffer).map_err(Failure::Reading)?;
    let printed = match input {
        Some(text) => files::print_months::<P, R>(rt, text),
        // the whole input is too long, at no line
        None => rt.println(Refusal::TooManyLines(0)),
    };
    printed.map_err(Failure::Writing)
}
