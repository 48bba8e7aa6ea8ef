// A call of a job and its answer.
ghost use Rattle.std.specs.Prelude.{◌≡◌, None};

use crate::refusal::Refusal;
pub use calls::Call;

// What an accepted call answers.
#[derive(Clone, Copy, Debug, PartialEq, Eq)]
pub enum Reply {
    Done,
    // the number of the row that was defined
    Row(u8),
}

// A call and the place of its answer.
#[derive(Clone, Copy, Debug, PartialEq, Eq)]
pub struct Exchange {
    pub call: Call,
    pub answer: Option<Result<Reply, Refusal>>,
}

// A call that has no answer yet.
impl From<Call> for Exchange {
    ghost from_gives = { λ call exchange. exchange ≡ record { call = call; answer = None } };

    fn from(call: Call) -> Exchange {
        Exchange { call, answer: None }
    }
}
