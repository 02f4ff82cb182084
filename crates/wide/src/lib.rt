// Exact quotient and remainder of a × b over c where the product passes 64 bits (paper 01, "Units and arithmetic"): the product as
// two words built from 32-bit halves, and two words divided by one.
#![tactic(auto)]

pub mod product;
pub mod quotient;

// A number of two words.
#[derive(Clone, Copy, Debug, PartialEq, Eq)]
pub struct Words {
    pub high: u64,
    pub low: u64,
}

// A quotient, which may have a sign, and its remainder, which has none.
#[derive(Clone, Copy, Debug, PartialEq, Eq)]
pub struct Divided<Q = u64> {
    pub quot: Q,
    pub rem: u64,
}

// Why a × b over c has no quotient of one word.
#[derive(Clone, Copy, Debug, PartialEq, Eq)]
pub enum NoRatio {
    // the quotient passes 64 bits
    Over,
    // c is 0
    ByZero,
}
