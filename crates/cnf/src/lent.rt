// A sink that is lent is a sink, so that its owner has it back with what it took.
ghost use Rattle.cnf.specs.Layers.{lent_model};

use crate::clause::Literal;
use crate::refusal::Refusal;
use crate::sink::Sink;

impl<'a, S: Sink> Sink for &'a mut S {
    ghost model = { lent_model S.Sink.model };

    fn longest_clause(&self) -> usize {
        S::longest_clause(*self)
    }

    fn highest_variable(&self) -> u32 {
        S::highest_variable(*self)
    }

    fn free_cells(&self) -> usize {
        S::free_cells(*self)
    }

    fn count(&self) -> usize {
        S::count(*self)
    }

    fn ask(&self, clause: &[Literal]) -> Result<(), Refusal> {
        S::ask(*self, clause)
    }

    fn accept(&mut self, clause: &[Literal]) {
        S::accept(*self, clause)
    }

    fn take(&mut self, clause: &[Literal]) -> Result<(), Refusal> {
        S::take(*self, clause)
    }
}
