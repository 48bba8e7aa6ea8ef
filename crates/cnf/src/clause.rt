// Literals and clauses. A clause is a slice of literals.
ghost use Rattle.std.specs.Prelude.{◌≡◌};
ghost use Rattle.cnf.specs.Clauses.{asserted, negated, opposite, given, within, in_range};

// A variable, numbered from 1, or its negation.
#[derive(Clone, Copy, Debug, PartialEq, Eq)]
pub struct Literal {
    pub variable: u32,
    pub positive: bool,
}

impl Literal {
    // The literal that is true where the variable is.
    pub fn asserted(variable: u32) -> Literal
        ensures { result ≡ asserted variable }
    {
        Literal {
            variable,
            positive: true,
        }
    }

    // The literal that is true where the variable is false.
    pub fn negated(variable: u32) -> Literal
        ensures { result ≡ negated variable }
    {
        Literal {
            variable,
            positive: false,
        }
    }

    // The literal that is true where this one is false.
    pub fn opposite(self) -> Literal
        ensures { result ≡ opposite self }
    {
        Literal {
            variable: self.variable,
            positive: !self.positive,
        }
    }

    // This literal, or its opposite where `value` is false.
    pub fn given(self, value: bool) -> Literal
        ensures { result ≡ given value self }
    {
        if value { self } else { self.opposite() }
    }

    // Whether the variable lies between 1 and `highest`.
    pub fn within(self, highest: u32) -> bool
        ensures { result ≡ within highest self }
    {
        (1..=highest).contains(&self.variable)
    }
}

// Whether the variable of every literal lies between 1 and `highest`.
pub fn in_range(highest: u32, clause: &[Literal]) -> bool
    ensures { result ≡ in_range highest clause.now }
{
    for literal in clause {
        if !literal.within(highest) {
            return false;
        }
    }
    true
}
