// Why a sink refuses a clause.
ghost use Rattle.std.specs.Prelude.{◌≡◌};
ghost use Rattle.cnf.specs.Refusals.{number, verdict};

use crate::clause::{Literal, in_range};

#[derive(Clone, Copy, Debug, PartialEq, Eq)]
pub enum Refusal {
    // the number of literals is not between 1 and the longest
    Length = 40,
    // some variable is not between 1 and the highest
    Variable = 41,
    // fewer cells are free than the clause has literals and one more
    Cells = 42,
}

impl Refusal {
    // The number of the question that was answered no.
    pub fn number(self) -> u32
        ensures { result ≡ number self }
    {
        self as u32
    }
}

// Asks what every sink asks of a clause; the first no is the answer.
pub fn examine(
    longest: usize,
    highest: u32,
    cells: usize,
    clause: &[Literal],
) -> Result<(), Refusal>
    ensures { result ≡ verdict longest highest cells clause.now }
{
    let n = clause.len();
    if clause.is_empty() || n > longest {
        return Err(Refusal::Length);
    }
    if !in_range(highest, clause) {
        return Err(Refusal::Variable);
    }
    if cells <= n {
        return Err(Refusal::Cells);
    }
    Ok(())
}
