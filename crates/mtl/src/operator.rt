// The operators, by their codes.
ghost use Rattle.std.specs.Prelude.{◌≡◌};
ghost use Rattle.mtl.specs.Fields.{operator_with};

// The variables that an operator has besides one for each instant.
#[derive(Clone, Copy, PartialEq, Eq, Debug)]
pub enum Extra {
    Nothing,
    // one for each instant of the run
    Seen,
    // one for each unit of the distance
    Ahead,
}

// The shape of the clauses that tie a row to its operands.
#[derive(Clone, Copy, PartialEq, Eq, Debug)]
pub enum Shape {
    Free,
    Same,
    Both,
    Either,
    Upto,
    Hold,
    Any,
    All,
}

#[derive(Clone, Copy, PartialEq, Eq, Debug)]
pub struct Operator {
    // the byte that names it in a frame
    pub code: u8,
    pub operands: u8,
    pub timed: bool,
    pub extra: Extra,
    pub shape: Shape,
}

// A row for each operator: its code, as the files of scripts write it, its operands, whether it has a distance, its extra
// variables and its shape.
macro_rules! operators {
    ($($code:literal $operands:literal $timed:literal $extra:ident $shape:ident,)*) => {
        [$(Operator {
            code: $code,
            operands: $operands,
            timed: $timed,
            extra: Extra::$extra,
            shape: Shape::$shape,
        }),*]
    };
}

// The seventeen operators in the order of their codes, 1 to 17.
pub const OPERATORS: [Operator; 17] = operators![
    1 0 false Nothing Free,
    2 1 false Nothing Same,
    3 2 false Nothing Both,
    4 2 false Nothing Either,
    5 1 false Nothing Same,
    6 2 false Seen Upto,
    7 2 false Seen Hold,
    8 1 true Ahead Same,
    9 1 true Ahead Any,
    10 1 true Ahead All,
    11 1 false Nothing Same,
    12 1 false Nothing Same,
    13 2 false Nothing Upto,
    14 2 false Nothing Hold,
    15 1 true Nothing Same,
    16 1 true Nothing Any,
    17 1 true Nothing All,
];

// The operator of a code, if it is one.
pub fn operator_of(code: u8) -> Option<Operator>
    ensures { result ≡ operator_with code }
{
    match code {
        1..=17 => Some(OPERATORS[code as usize - 1]),
        _ => None,
    }
}
