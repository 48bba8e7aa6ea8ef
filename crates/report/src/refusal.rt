// Why a script and a solver's answer come to no report.
ghost use Rattle.std.specs.Prelude.{◌≡◌, Some};
ghost use Rattle.report.specs.declared.refusal.Refusal.TheVariants.{Script, Answer, Run};
ghost use Rattle.report.specs.Refusals.{number, line, notice};

use answers::refusals::Refusal as AnswerRefusal;
use script::refusal::Stop;
use std::fmt;
use witness::refusal::Refusal as RunRefusal;

#[derive(Clone, Copy)]
pub enum Refusal {
    // the script, at one of its lines
    Script(Stop),
    // the solver's answer
    Answer(AnswerRefusal),
    // the run of the assignment
    Run(RunRefusal),
}

impl From<Stop> for Refusal {
    ghost from_gives = { λ e r. r ≡ Script e };

    fn from(stop: Stop) -> Self {
        Self::Script(stop)
    }
}

impl From<AnswerRefusal> for Refusal {
    ghost from_gives = { λ e r. r ≡ Answer e };

    fn from(refusal: AnswerRefusal) -> Self {
        Self::Answer(refusal)
    }
}

impl From<RunRefusal> for Refusal {
    ghost from_gives = { λ e r. r ≡ Run e };

    fn from(refusal: RunRefusal) -> Self {
        Self::Run(refusal)
    }
}

impl Refusal {
    // The number of the question that was answered no. Each case holds a refusal with numbers of its own.
    pub fn number(self) -> u32
        ensures { result ≡ number self }
    {
        match self {
            Refusal::Script(stop) => stop.refusal.number(),
            Refusal::Answer(refusal) => u32::from(refusal.number()),
            Refusal::Run(refusal) => refusal.number(),
        }
    }

    // The line of the script, counted from 1; none where another text is refused.
    pub fn line(self) -> Option<usize>
        ensures { result ≡ line self }
    {
        match self {
            Refusal::Script(stop) => Some(stop.line),
            _ => None,
        }
    }
}

// What is told of a refusal; line 0 is no line.
impl fmt::Display for Refusal {
    ghost output = { λ r. Some (notice r) };

    fn fmt<W: fmt::Write>(&self, f: &mut fmt::Formatter<W>) -> fmt::Result {
        let number = self.number();
        let line = self.line().unwrap_or(0);
        write!(f, "REFUSED {number} {line}")
    }
}
