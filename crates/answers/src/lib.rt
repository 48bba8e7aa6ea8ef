// The answer of a SAT solver, read from its text.
#![tactic(auto)]

mod literals;
mod numbers;
pub mod reading;
pub mod refusals;
pub mod theorems;
mod valuation;
pub mod verdicts;
