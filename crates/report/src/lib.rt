// What a solver's answer to a script's clauses comes to, and how it is told.
#![tactic(auto)]

pub mod outcome;
pub mod refusal;
pub mod reporting;
pub mod telling;
