// The truth of each row of a table on a looping run, instant by instant.
#![tactic(auto)]

pub mod instants;
pub mod lasso;
pub mod lines;
pub mod rows;
pub mod run;
