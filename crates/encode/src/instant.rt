// The small numbers that clauses speak of.
ghost use Rattle.std.specs.Prelude.{◌≤◌};

// An instant or a distance.
#[derive(Clone, Copy)]
pub struct Instant {
    pub value: u8,
    ghost small: { value ≤ 31 },
}
