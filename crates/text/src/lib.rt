// The lines of a text and the words of a line.
#![tactic(auto)]

pub mod lines;
pub mod splitting;
pub mod theorems;
pub mod words;
