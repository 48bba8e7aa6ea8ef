// What the frames say: a record for each kind, those of the calls from their crate.
pub use calls::records::{Begin, Define, Require};

// A run's bound and the instant that its loop goes back to.
#[derive(Clone, Copy, PartialEq, Eq, Debug)]
pub struct Run {
    pub bound: u8,
    pub start: u8,
}

// The signals of an instant, bit 0 for signal 0.
#[derive(Clone, Copy, PartialEq, Eq, Debug)]
pub struct Letter {
    pub instant: u8,
    pub signals: u32,
}
