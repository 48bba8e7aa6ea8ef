// What takes clauses.
ghost use Rattle.std.specs.Prelude.{◌≡◌, true, false, is_ok};
ghost use Rattle.cnf.specs.Sinks.{Model, Taken, answer};

use crate::clause::Literal;
use crate::refusal::{Refusal, examine};

// The most literals that a clause has, whatever the sink.
pub const LONGEST_CLAUSE: usize = 40;

pub trait Sink {
    // the assignments that it watches, which of them are still in, and what it asks of a clause
    ghost model: { Model Self };

    // The number of literals that a clause may have at most, never above `LONGEST_CLAUSE`.
    fn longest_clause(&self) -> usize
        ensures { result ≡ model.longest self.now };

    fn highest_variable(&self) -> u32
        ensures { result ≡ model.highest self.now };

    // How many literals and clauses there is room for.
    fn free_cells(&self) -> usize
        ensures { result ≡ model.cells self.now };

    // The number of clauses taken.
    fn count(&self) -> usize
        ensures { result ≡ model.count self.now };

    // Asks what this sink asks of a clause; the first no is the answer.
    fn ask(&self, clause: &[Literal]) -> Result<(), Refusal>
        ensures { result ≡ answer model self.now clause.now }
    {
        let longest = (*self).longest_clause();
        let highest = (*self).highest_variable();
        let cells = (*self).free_cells();
        examine(longest, highest, cells, clause)
    }

    // Takes a clause that this sink has no reason to refuse.
    fn accept(&mut self, clause: &[Literal])
        requires { answer model self.old clause.now ≡ Ok tt }
        ensures { Taken model clause.now self.old self.new }
    {
        let _ = self.take(clause);
    }

    // Takes a clause, or says why not and stays as it was.
    fn take(&mut self, clause: &[Literal]) -> Result<(), Refusal>
        ensures answer { result ≡ answer model self.old clause.now }
        ensures refused { is_ok result ≡ false → self.new ≡ self.old }
        ensures taken { is_ok result ≡ true → Taken model clause.now self.old self.new };
}
