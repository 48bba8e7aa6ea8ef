// A list of at most so many values, which lie in the list itself: it needs no memory of its own, and is copied as they are.
#![tactic(auto)]

mod bounded;

pub use bounded::Bounded;
