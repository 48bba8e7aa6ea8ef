// Why a line is refused: the first question that is answered by no.
ghost use Rattle.std.specs.Prelude.{◌≡◌};
ghost use Rattle.frames.specs.Numbers.{number};

#[derive(Clone, Copy, PartialEq, Eq, Debug)]
pub enum Refusal {
    // the line is not an even number, 6 to 14, of digits 0 to 9 and A to F
    Digits = 1,
    // the sum of the bytes is no multiple of 256
    Sum = 2,
    // the kind is not one that is read here
    Kind = 3,
    // the number of bytes is not the kind's
    Length = 4,
}

impl Refusal {
    // The number of the question.
    pub fn number(self) -> u8
        ensures { result ≡ number self }
    {
        self as u8
    }
}
