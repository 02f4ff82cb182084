// What calls answer: done, or why not (paper 01, "Why a month comes back").
ghost use Rattle.std.specs.Prelude.{◌≡◌};
ghost use Rattle.rules.specs.Answers.{lent_place, number_of, place_of};

use crate::Ledger;
use std::error::Error;
use std::fmt;

// A slice that a call is lent, where it may be too short.
#[derive(Clone, Copy, Debug, PartialEq, Eq)]
pub enum Lent {
    Held,
    Cells,
    Work,
    PointRows,
    UserRows,
    PayeeRows,
}

// Why a call is refused. The number and the place that the paper gives it are `number_of` and `place_of` of specs/Answers.
#[derive(Clone, Copy, Debug, PartialEq, Eq)]
pub enum Refusal {
    BadCounts,
    ShortSlice(Lent),
    BadMonth,
    // of the user with this number
    BadCredit(u64),
    // of the line at this position in its kind, 0 of the month's
    BadValue(u64),
    // of the point at this position
    NoSuchUser(u64),
    UnfitPoint(u64),
    // the sum of pb is 0
    NoPayments,
    // something to share over the use charges, whose sum is 0
    NoUse,
    // the sum of the debits is 0
    NoDebit,
    // at this byte of the text
    NotAFile(usize),
    TooManyLines(usize),
}

impl Lent {
    // The place of refusal 2.
    fn place(self) -> u64
        ensures { result ≡ lent_place self }
    {
        match self {
            Lent::Held => 1,
            Lent::Cells => 2,
            Lent::Work => 3,
            Lent::PointRows => 7,
            Lent::UserRows => 8,
            Lent::PayeeRows => 9,
        }
    }
}

impl Refusal {
    pub fn number(self) -> u64
        ensures { result ≡ number_of self }
    {
        match self {
            Refusal::BadCounts => 1,
            Refusal::ShortSlice(_) => 2,
            Refusal::BadMonth => 3,
            Refusal::BadCredit(_) => 4,
            Refusal::BadValue(_) => 5,
            Refusal::NoSuchUser(_) => 6,
            Refusal::UnfitPoint(_) => 7,
            Refusal::NoPayments => 8,
            Refusal::NoUse => 9,
            Refusal::NoDebit => 10,
            Refusal::NotAFile(_) => 11,
            Refusal::TooManyLines(_) => 12,
        }
    }

    pub fn place(self) -> u64
        ensures { result ≡ place_of self }
    {
        match self {
            Refusal::ShortSlice(lent) => lent.place(),
            Refusal::BadCredit(place)
            | Refusal::BadValue(place)
            | Refusal::NoSuchUser(place)
            | Refusal::UnfitPoint(place) => place,
            Refusal::NotAFile(byte) | Refusal::TooManyLines(byte) => byte as u64,
            Refusal::BadCounts
            | Refusal::BadMonth
            | Refusal::NoPayments
            | Refusal::NoUse
            | Refusal::NoDebit => 0,
        }
    }
}

// As the programs print it.
impl fmt::Display for Refusal {
    fn fmt<W: fmt::Write>(&self, f: &mut fmt::Formatter<W>) -> fmt::Result {
        write!(f, "refused,{},{}", self.number(), self.place())
    }
}

impl Error for Refusal {}

// The answer of opening or closing, with the ledger that holds from then on. Both are there in either case: of zeros after a refused
// opening (paper 01), the one that was handed in after a refused closing (`Closes`).
#[derive(Clone, Copy, Debug, PartialEq, Eq)]
pub struct Outcome {
    pub answer: Result<(), Refusal>,
    pub ledger: Ledger,
}
