// A closing of which 1 and 2 are tested: refusals 1 to 10 in paper 01's order with every user's sums and amounts, and what an accepted
// month writes.
#![tactic(auto)]

pub mod judge;
pub mod write;
