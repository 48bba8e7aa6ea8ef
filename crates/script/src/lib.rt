// Scripts: a text of calls, one a line, run on a job; and the file of a script.
#![tactic(auto)]

pub mod file;
pub mod refusal;
pub mod running;
pub mod theorems;
