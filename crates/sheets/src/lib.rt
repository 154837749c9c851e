// Sheets and the checker.
#![tactic(auto)]

pub mod checker;
pub mod machines;
pub mod proofs;
mod reading;
