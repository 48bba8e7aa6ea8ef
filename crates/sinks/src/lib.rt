// The two sinks at the bottom: a writer of lines and a judge of one assignment.
#![tactic(auto)]

pub mod judge;
pub mod line;
mod pen;
pub mod single;
pub mod theorems;
pub mod writer;

// The highest variable of a clause that either takes, whatever their areas.
pub const HIGHEST_VARIABLE: u32 = 9999;
