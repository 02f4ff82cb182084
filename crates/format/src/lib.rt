// Why a file of a text comes back, and at which byte (paper 01, "Why a month comes back", 11 and 12).
#![tactic(auto)]

#[derive(Clone, Copy, Debug, PartialEq, Eq)]
pub enum Fault {
    Faulty(usize),
    Full(usize),
}
