// Credits of a payee (paper 01): the agents in order, and then ONS. Each function equals its definition in `rules`.
#![tactic(auto)]

pub mod agent;
pub mod columns;
mod cycle;
pub mod payees;
