// A sink over any sink, for clauses that bind only where one variable is true.
ghost use Rattle.std.specs.Prelude.{◌≡◌, ◌<◌, true, false, ◌∷◌, length, is_ok};
ghost use Rattle.bounded.specs.Items.{items};
ghost use Rattle.cnf.specs.Layers.{switch_model};
ghost use Rattle.cnf.specs.Sinks.{Taken, answer};

use crate::clause::Literal;
use crate::refusal::Refusal;
use crate::sink::{LONGEST_CLAUSE, Sink};
use bounded::Bounded;

// Hands each clause to the sink below with the negated variable in front.
#[derive(Debug, Drop)]
pub struct Switch<S> {
    pub below: S,
    pub variable: u32,
}

// `first` and then the literals of `clause`.
fn prefixed(first: Literal, clause: &[Literal]) -> Bounded<Literal, LONGEST_CLAUSE>
    requires { length clause.now < LONGEST_CLAUSE }
    ensures { items result ≡ first ∷ clause.now }
{
    let mut literals = Bounded::new(first);
    literals.push(first);
    literals.extend(clause);
    literals
}

impl<S> Switch<S> {
    pub fn new(below: S, variable: u32) -> Switch<S>
        ensures { result ≡ record { below = below; variable = variable } }
    {
        Switch { below, variable }
    }
}

impl<S: Sink> Sink for Switch<S> {
    ghost model = { switch_model S.Sink.model };

    fn longest_clause(&self) -> usize {
        let switch = Literal::asserted(self.variable);
        if switch.within(self.below.highest_variable()) {
            self.below.longest_clause().saturating_sub(1)
        } else {
            0
        }
    }

    fn highest_variable(&self) -> u32 {
        self.below.highest_variable()
    }

    fn free_cells(&self) -> usize {
        self.below.free_cells() / 2
    }

    fn count(&self) -> usize {
        self.below.count()
    }

    fn accept(&mut self, clause: &[Literal]) {
        let switched = prefixed(Literal::negated(self.variable), clause);
        self.below.accept(switched.as_slice());
    }

    fn take(&mut self, clause: &[Literal]) -> Result<(), Refusal> {
        (*self).ask(clause)?;
        self.accept(clause);
        Ok(())
    }
}

// Hands a clause through a switch to a sink that the caller keeps.
pub fn take_switched<S: Sink>(
    sink: &mut S,
    variable: u32,
    clause: &[Literal],
) -> Result<(), Refusal>
    ensures answer { result ≡ answer (switch_model S.Sink.model) (record { below = sink.old; variable = variable }) clause.now }
    ensures refused { is_ok result ≡ false → sink.new ≡ sink.old }
    ensures taken { is_ok result ≡ true → Taken (switch_model S.Sink.model) clause.now (record { below = sink.old; variable = variable }) (record { below = sink.new; variable = variable }) }
{
    let mut switch = Switch::new(sink, variable);
    switch.take(clause)
}
