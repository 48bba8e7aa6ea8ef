// A job writes the clauses of rows and requirements into its sink.
#![tactic(auto)]

pub mod bottom;
pub mod call;
mod cost;
pub mod drive;
pub mod feed;
mod handing;
pub mod job;
pub mod refusal;
pub mod state;
