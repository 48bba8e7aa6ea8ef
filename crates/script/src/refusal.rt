// Why a script is refused, and at which line.
ghost use Rattle.std.specs.Prelude.{◌≡◌, Some};
ghost use Rattle.script.specs.declared.refusal.Refusal.TheVariants.{Line, Call};
ghost use Rattle.script.specs.Refusals.{number, notice};

use frames::refusals::Refusal as LineRefusal;
use job::refusal::Refusal as CallRefusal;
use std::fmt;

#[derive(Clone, Copy, Debug, PartialEq, Eq)]
pub enum Refusal {
    // the line is no frame of a script
    Line(LineRefusal),
    // the job refuses the line's call
    Call(CallRefusal),
}

impl From<LineRefusal> for Refusal {
    ghost from_gives = { λ e r. r ≡ Line e };

    fn from(refusal: LineRefusal) -> Self {
        Self::Line(refusal)
    }
}

impl From<CallRefusal> for Refusal {
    ghost from_gives = { λ e r. r ≡ Call e };

    fn from(refusal: CallRefusal) -> Self {
        Self::Call(refusal)
    }
}

impl Refusal {
    // The number of the question that was answered no. Each case holds a refusal with numbers of its own.
    pub fn number(self) -> u32
        ensures { result ≡ number self }
    {
        match self {
            Refusal::Line(refusal) => u32::from(refusal.number()),
            Refusal::Call(refusal) => refusal.number(),
        }
    }
}

// The first refused line of a script, counted from 1.
#[derive(Clone, Copy, Debug, PartialEq, Eq)]
pub struct Stop {
    pub refusal: Refusal,
    pub line: usize,
}

// What is told of a refused script.
impl fmt::Display for Stop {
    ghost output = { λ s. Some (notice s) };

    fn fmt<W: fmt::Write>(&self, f: &mut fmt::Formatter<W>) -> fmt::Result {
        let number = self.refusal.number();
        let line = self.line;
        write!(f, "REFUSED {number} {line}")
    }
}
