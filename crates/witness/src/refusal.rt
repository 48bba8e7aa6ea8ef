// Why a run has no assignment, or an assignment no run.
ghost use Rattle.std.specs.Prelude.{◌≡◌};
ghost use Rattle.witness.specs.Refusals.{number};

use evaluate::rows::Unsettled;

#[derive(Debug, Clone, Copy, PartialEq, Eq)]
pub enum Refusal {
    // the job is not begun
    NotBegun,
    // the number of letters is not k + 1
    Letters,
    // the loop start is after the bound
    Start,
    // a signal that is used has no row
    Signal,
    // the area or the work area is too small
    Room,
    // the run is not settled for this row, and no earlier one
    Unsettled(u8),
    // none or more than one of the variables of the loop start is true
    NoStart,
}

impl Refusal {
    // The number of the question that was answered no. A variant that carries a row has no discriminant.
    pub fn number(self) -> u32
        ensures { result ≡ number self }
    {
        match self {
            Refusal::NotBegun => 20,
            Refusal::Letters => 50,
            Refusal::Start => 51,
            Refusal::Signal => 52,
            Refusal::Room => 53,
            Refusal::Unsettled(_) => 54,
            Refusal::NoStart => 55,
        }
    }
}

impl From<Unsettled> for Refusal {
    ghost use Rattle.witness.specs.declared.refusal.Refusal.TheVariants.{Unsettled as UnsettledFor};

    ghost from_gives = { λ e r. r ≡ UnsettledFor e.row };

    fn from(e: Unsettled) -> Refusal {
        Refusal::Unsettled(e.row)
    }
}
