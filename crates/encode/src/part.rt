// The parts that clause lists are made of: a part has a few clauses for each instant.
//
// A part and its guard are data, and not closures from an instant to a claim: `write_part` names the list that it writes by
// them. With closures it could say only that some list agrees with their answers, and each caller had to name that list again
// in its proof.
use super::instant::Instant;
use bounded::Bounded;
use cnf::clause::Literal;

// Fills the places of a list that hold no literal yet. All its bytes are zero: such places are filled at once.
pub const BLANK: Literal = Literal {
    variable: 0,
    positive: false,
};

// Data, as the parts with a link are: how a row's value at one instant follows from its value, or its operand's, at another.
#[derive(Clone, Copy)]
pub enum Link {
    Next,
    Until,
    Release,
}

// What a row of the past depends on before the loop: its own values or its first operand's, how far back, and the value
// before instant 0.
#[derive(Clone, Copy)]
pub struct Back {
    pub own: bool,
    pub reach: Instant,
    pub before: bool,
}

// Where a part's clauses bind.
#[derive(Clone, Copy)]
pub enum Guard {
    Always,
    // where the loop has started at the part's instant
    Inside,
    // where the loop starts at the part's instant
    Start,
    StartAt(Instant),
}

// What is claimed of each instant.
#[derive(Clone, Copy)]
pub enum Part {
    // the loop does not start at the next instant
    Apart,
    // what is inside the loop at the next instant
    Rise,
    Not,
    And,
    Or,
    // an instant and the next one
    Forward(Link),
    // the last instant and the loop start
    Around(Link),
    // an instant and the one before
    Backward(Link),
    // the second operand, or its opposite, since the loop start
    Seen(bool),
    After(Instant),
    // some or every instant up to so many ahead
    Within(Instant),
    Throughout(Instant),
    // some or every instant up to so many ago
    Lately(Instant),
    Steadily(Instant),
    // the first operand at an instant after the last one
    Beyond(Instant),
    // the first operand so long ago, or the value where there is no such instant
    Delayed(Instant, bool),
    // how the past agrees with the loop that starts at an instant
    Closed(Back, Instant),
}

// What a few clauses say of their literals. A clause has room for thirty-two of a run, and two more.
#[derive(Clone, Copy)]
pub enum Claim {
    Unit(Literal),
    Same(Literal, Literal),
    Both(Literal, Literal, Literal),
    Either(Literal, Literal, Literal),
    Upto(Literal, Literal, Literal, Literal),
    Hold(Literal, Literal, Literal, Literal),
    Any(Literal, Bounded<Literal, 32>),
    All(Literal, Bounded<Literal, 32>),
}
