// Why a call of a job is refused.
ghost use Rattle.std.specs.Prelude.{◌≡◌};
ghost use Rattle.job.specs.Refusals.{number};

#[derive(Clone, Copy, Debug, PartialEq, Eq)]
pub enum Refusal {
    // the job is begun already
    Begun = 10,
    // the bound is above 31
    Bound = 11,
    // the list has a longer clause than the sink takes
    Long = 12,
    // the job's highest variable would lie above the sink's
    Variables = 13,
    // the list has more cells than are free
    Cells = 14,
    // the job is not begun
    NotBegun = 20,
    // there are 32 rows
    Full = 21,
    // no operator has this code
    Code = 22,
    // a field that the operator has no use for is not zero
    Unused = 23,
    // an operand is not an earlier row, or the signal is above 31
    Operand = 24,
    // the signal has a row
    Signal = 25,
    // the distance is above 31
    Distance = 26,
    // there is no such row
    NoRow = 30,
    // the instant is after the bound
    Instant = 31,
    // the value is neither 0 nor 1
    Value = 32,
    // there are 64 requirements
    Requirements = 33,
}

impl Refusal {
    // The number of the question that was answered no.
    pub fn number(self) -> u32
        ensures { result ≡ number self }
    {
        self as u32
    }
}
