// Charges of a user (paper 01, "Charges of a user"): of a point, added over the points, the month's amounts of every user,
// and the refusals that go by their sums.
#![tactic(auto)]

pub mod direct;
pub mod month;
pub mod point;
pub mod scan;
pub mod sums;
