// The writer as a sink.
ghost use Rattle.std.specs.Prelude.{◌≡◌};
ghost use Rattle.sinks.specs.Models.{writer_model, NewWriter};

use crate::HIGHEST_VARIABLE;
use crate::line::put_line;
use crate::writer::Writer;
use cnf::clause::Literal;
use cnf::refusal::Refusal;
use cnf::sink::{LONGEST_CLAUSE, Sink};

// The bytes of an area that a writer uses at most.
const MOST_BYTES: usize = 16777216;

// The longest literal has a sign, four digits and a blank.
const LITERAL_BYTES: usize = 6;

impl<'a> Writer<'a> {
    // A writer with no line: every assignment is in.
    pub fn new(area: &'a mut [u8]) -> Writer<'a>
        ensures new { NewWriter area.old result }
        ensures name { result.area.ghost_name ≡ area.entry.ghost_name }
    {
        Writer {
            area,
            used: 0,
            taken: 0,
        }
    }
}

impl<'a> Sink for Writer<'a> {
    ghost model = { writer_model };

    fn longest_clause(&self) -> usize {
        LONGEST_CLAUSE
    }

    fn highest_variable(&self) -> u32 {
        HIGHEST_VARIABLE
    }

    fn free_cells(&self) -> usize {
        self.area.len().min(MOST_BYTES).saturating_sub(self.used) / LITERAL_BYTES
    }

    fn count(&self) -> usize {
        self.taken
    }

    fn accept(&mut self, clause: &[Literal]) {
        self.used = put_line(self.area, self.used, clause);
        self.taken += 1;
    }

    fn take(&mut self, clause: &[Literal]) -> Result<(), Refusal> {
        (*self).ask(clause)?;
        self.accept(clause);
        Ok(())
    }
}
