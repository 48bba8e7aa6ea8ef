// Runs in and out: the assignment of a run, and the run of an assignment.
#![tactic(auto)]

mod area;
pub mod fill;
pub mod refusal;
pub mod run;
pub mod theorems;
