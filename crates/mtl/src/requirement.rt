// What is asked of a run.

// The row with this number has this truth at this instant.
#[derive(Clone, Copy, PartialEq, Eq, Debug)]
pub struct Requirement {
    pub row: u8,
    pub instant: u8,
    pub value: bool,
}
