// The judge as a sink.
ghost use Rattle.std.specs.Prelude.{◌≡◌};
ghost use Rattle.cnf.specs.Clauses.{truth, sat};
ghost use Rattle.sinks.specs.Models.{judge_model, NewJudge, assigned};

use crate::HIGHEST_VARIABLE;
use crate::judge::Judge;
use cnf::clause::Literal;
use cnf::refusal::Refusal;
use cnf::sink::{LONGEST_CLAUSE, Sink};

// The cells of a new judge.
const CELLS: usize = 16777216;

// The byte of a variable that is true.
const TRUE: u8 = 1;

// Whether the area gives `variable` the value true.
fn value(area: &[u8], variable: u32) -> bool
    ensures { result ≡ assigned area.now variable }
{
    let at = variable.saturating_sub(1) as usize;
    area.get(at) == Some(&TRUE)
}

fn holds(area: &[u8], literal: Literal) -> bool
    ensures { result ≡ truth (assigned area.now) literal }
{
    value(area, literal.variable) == literal.positive
}

fn satisfies(area: &[u8], clause: &[Literal]) -> bool
    ensures { result ≡ sat (assigned area.now) clause.now }
{
    for literal in clause {
        if holds(area, *literal) {
            return true;
        }
    }
    false
}

impl<'a> Judge<'a> {
    // A judge with no clause: its assignment is in.
    pub fn new(area: &'a [u8]) -> Judge<'a>
        ensures { NewJudge area.now result }
    {
        Judge {
            area,
            cells: CELLS,
            taken: 0,
            fault: None,
        }
    }
}

impl<'a> Sink for Judge<'a> {
    ghost model = { judge_model };

    fn longest_clause(&self) -> usize {
        LONGEST_CLAUSE
    }

    fn highest_variable(&self) -> u32 {
        self.area.len().min(HIGHEST_VARIABLE as usize) as u32
    }

    fn free_cells(&self) -> usize {
        self.cells
    }

    fn count(&self) -> usize {
        self.taken
    }

    fn accept(&mut self, clause: &[Literal]) {
        self.taken += 1;
        self.cells -= clause.len() + 1;
        if !satisfies(self.area, clause) {
            self.fault = self.fault.or(Some(self.taken));
        }
    }

    fn take(&mut self, clause: &[Literal]) -> Result<(), Refusal> {
        (*self).ask(clause)?;
        self.accept(clause);
        Ok(())
    }
}
