// Why a text is refused: the first question that is answered by no.
ghost use Rattle.std.specs.Prelude.{◌≡◌};
ghost use Rattle.answers.specs.Refusals.{number};

#[derive(Clone, Copy, PartialEq, Eq, Debug)]
pub enum Refusal {
    // the text has more than 60,000 bytes
    TextLength = 43,
    // the area has fewer bytes than the job has variables
    AreaLength = 44,
    // the first line is no verdict
    Status = 45,
    // the other lines do not have the form of the verdict
    Form = 46,
    // a variable is not one of the job's, or comes twice
    Variable = 47,
    // a variable of the job is not given
    Missing = 48,
}

impl Refusal {
    // The number of the question.
    pub fn number(self) -> u8
        ensures { result ≡ number self }
    {
        self as u8
    }
}
