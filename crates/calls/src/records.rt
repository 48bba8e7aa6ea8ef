// What the calls say: a record for each.

// The bound of the rules that follow.
#[derive(Clone, Copy, PartialEq, Eq, Debug)]
pub struct Begin {
    pub bound: u8,
}

// A row: an operator's code and its fields.
#[derive(Clone, Copy, PartialEq, Eq, Debug)]
pub struct Define {
    pub code: u8,
    pub a: u8,
    pub b: u8,
    pub t: u8,
}

// The value that a row is to have at an instant.
#[derive(Clone, Copy, PartialEq, Eq, Debug)]
pub struct Require {
    pub row: u8,
    pub instant: u8,
    pub value: u8,
}
