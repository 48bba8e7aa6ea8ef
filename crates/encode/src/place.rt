// Where the clauses of a row stand.
ghost use Rattle.std.specs.Prelude.{◌≡◌, ◌<◌, ◌≤◌};

use cnf::clause::Literal;

// The last instant k of a run, and where the blocks of a row's operands, a and b, and its own, x, start.
#[derive(Clone, Copy, Debug, PartialEq, Eq)]
pub struct Place {
    pub k: u8,
    pub a: u32,
    pub b: u32,
    pub x: u32,
    ghost small: { (k ≤ 31) × (a < 65536) × (b < 65536) × (x < 65536) },
}

// The literals at an instant.
impl Place {
    ghost use Rattle.encode.specs.Parts.{lits_a, lits_b, lits_x, lits_e};

    pub(crate) fn first(self, i: u8) -> Literal
        ensures { result ≡ lits_a self i }
    {
        Literal::asserted(self.a + i as u32)
    }

    pub(crate) fn second(self, i: u8) -> Literal
        ensures { result ≡ lits_b self i }
    {
        Literal::asserted(self.b + i as u32)
    }

    pub(crate) fn own(self, i: u8) -> Literal
        ensures { result ≡ lits_x self i }
    {
        Literal::asserted(self.x + i as u32)
    }

    pub(crate) fn extra(self, i: u8) -> Literal
        ensures { result ≡ lits_e self i }
    {
        Literal::asserted(self.x + (self.k as u32 + 1) + i as u32)
    }
}
