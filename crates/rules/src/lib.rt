// The shapes that the calls share: lines, ledger, answers. What they mean is in specs/: paper 01 as definitions.
#![tactic(auto)]

mod kinds;
mod outcomes;

pub use kinds::{Kind, NoKind};
pub use outcomes::{Lent, Outcome, Refusal};

// The most users, agents, payees and points of a month (paper 01, "A month's lines"). Nothing is allocated: what is kept by
// user, agent or payee stands in arrays of so many.
pub const USERS: usize = 512;

pub const AGENTS: usize = 256;

pub const PAYEES: usize = AGENTS + 1;

pub const POINTS: usize = 1024;

// The month line (paper 01, "A month's lines"): yyyymm, and RMONS.
#[derive(Clone, Copy, Debug, PartialEq, Eq)]
pub struct MonthLine {
    pub month: i64,
    pub ons: i64,
}

// An agent's line: its position from 1, base payments, variable parcel, overload addition, overload refund, yearly adjustment, revenue
// correction.
#[derive(Clone, Copy, Debug, Default, PartialEq, Eq)]
pub struct Agent {
    pub number: i64,
    pub pb: i64,
    pub pv: i64,
    pub afs: i64,
    pub rfs: i64,
    pub pa: i64,
    pub ret: i64,
}

// A user's line: its position from 1, the number of its kind, charge correction, direct charge (paper 02, Q-1).
#[derive(Clone, Copy, Debug, Default, PartialEq, Eq)]
pub struct User {
    pub number: i64,
    pub kind: i64,
    pub ret: i64,
    pub ong: i64,
}

// A connection point's line: its user, then peak and off-peak tariff, discount, contracted and verified power.
#[derive(Clone, Copy, Debug, Default, PartialEq, Eq)]
pub struct Point {
    pub user: i64,
    pub tp: i64,
    pub tf: i64,
    pub dp: i64,
    pub df: i64,
    pub mp: i64,
    pub mf: i64,
    pub vp: i64,
    pub vf: i64,
}

// The lines of one month, as a call is lent them.
#[derive(Clone, Copy)]
pub struct MonthLines<'a> {
    pub line: MonthLine,
    pub agents: &'a [Agent],
    pub users: &'a [User],
    pub points: &'a [Point],
}

// The lengths of the slices that a closing is lent.
#[derive(Clone, Copy, Debug, PartialEq, Eq)]
pub struct Lengths {
    pub held: u64,
    pub cells: u64,
    pub work: u64,
}

// The ledger (paper 01, "The ledger"): the counts of an accepted opening and the last closed month, 0 for none. The default is what a
// refused opening answers.
#[derive(Clone, Copy, Debug, Default, PartialEq, Eq)]
pub struct Ledger {
    pub users: u64,
    pub agents: u64,
    pub month: i64,
}

// A ledger with the credits that its users hold, to be looked at.
#[derive(Clone, Copy)]
pub struct Standing<'a> {
    pub ledger: Ledger,
    pub held: &'a [i64],
}
