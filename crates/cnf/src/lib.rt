// Clauses, the sinks that take them, and the layers over any sink.
#![tactic(auto)]

pub mod clause;
pub mod lent;
pub mod refusal;
pub mod sink;
pub mod switch;
