// A row of a table: a signal, or an operator with the numbers of its operands' rows and its distance.
ghost use Rattle.std.specs.Prelude.{◌≡◌, ◌≤◌};
ghost use Rattle.mtl.specs.Rows.{code, first, second, distance, signal_of, operator_of};
ghost use Rattle.mtl.specs.Fields.{row_of};

use crate::operator::{OPERATORS, Operator};
use calls::records::Define;

#[derive(Clone, Copy, PartialEq, Eq, Debug)]
pub enum Row {
    Signal(u8),
    Not(u8),
    And(u8, u8),
    Or(u8, u8),
    Next(u8),
    Until(u8, u8),
    Release(u8, u8),
    After(u8, u8),
    Within(u8, u8),
    Throughout(u8, u8),
    Previous(u8),
    WeakPrevious(u8),
    Since(u8, u8),
    Trigger(u8, u8),
    Ago(u8, u8),
    Lately(u8, u8),
    Steadily(u8, u8),
}

impl Row {
    pub const HIGHEST_SIGNAL: u8 = 31;

    pub const HIGHEST_DISTANCE: u8 = 31;

    // The row of a code, 1 to 17, and the fields that its operator has a use for.
    pub fn from_fields(code: u8, a: u8, b: u8, t: u8) -> Option<Row>
        ensures { result ≡ row_of code a b t }
    {
        match code {
            1 => Some(Row::Signal(a)),
            2 => Some(Row::Not(a)),
            3 => Some(Row::And(a, b)),
            4 => Some(Row::Or(a, b)),
            5 => Some(Row::Next(a)),
            6 => Some(Row::Until(a, b)),
            7 => Some(Row::Release(a, b)),
            8 => Some(Row::After(a, t)),
            9 => Some(Row::Within(a, t)),
            10 => Some(Row::Throughout(a, t)),
            11 => Some(Row::Previous(a)),
            12 => Some(Row::WeakPrevious(a)),
            13 => Some(Row::Since(a, b)),
            14 => Some(Row::Trigger(a, b)),
            15 => Some(Row::Ago(a, t)),
            16 => Some(Row::Lately(a, t)),
            17 => Some(Row::Steadily(a, t)),
            _ => None,
        }
    }

    // The code of its operator.
    #[tactic(auto, using(crate::proofs::Rows::code_range))]
    pub fn code(self) -> u8
        ensures value { result ≡ code self }
        ensures least { 1 ≤ result }
        ensures most { result ≤ 17 }
    {
        Define::from(self).code
    }

    // A signal's number, or the number of the first operand's row.
    pub fn first(self) -> u8
        ensures { result ≡ first self }
    {
        Define::from(self).a
    }

    // The number of the second operand's row, 0 where there is none: an unused field of a frame is zero.
    pub fn second(self) -> u8
        ensures { result ≡ second self }
    {
        Define::from(self).b
    }

    // Its distance, 0 where it has none, as in a frame.
    pub fn distance(self) -> u8
        ensures { result ≡ distance self }
    {
        Define::from(self).t
    }

    // The signal of a signal's row.
    pub fn signal(self) -> Option<u8>
        ensures { result ≡ signal_of self }
    {
        match self {
            Row::Signal(a) => Some(a),
            _ => None,
        }
    }

    pub fn operator(self) -> Operator
        ensures { result ≡ operator_of self }
    {
        OPERATORS[(self.code() - 1) as usize]
    }
}
