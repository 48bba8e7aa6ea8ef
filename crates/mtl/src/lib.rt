// Rules of metric temporal logic with past, looping runs, and the clauses that say the same.
#![tactic(auto)]

pub mod bound;
pub mod cells;
mod fields;
pub mod layout;
pub mod operator;
pub mod requirement;
pub mod row;
pub mod table;
pub mod theorems;
