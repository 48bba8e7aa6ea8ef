// What a solver's answer to the clauses of a script comes to.
ghost use Rattle.std.specs.Prelude.{◌<◌, length};
ghost use Rattle.bounded.specs.Items.{items};

use crate::refusal::Refusal;
use bounded::Bounded;

#[derive(Clone, Copy)]
pub enum Report {
    // the solver found no assignment
    Unsatisfiable,
    // the assignment is out: the number of the first clause that it makes false
    Out(usize),
    // the assignment is in: its run
    Shown(ShownRun),
}

// A run: its loop start, and the letters of the instants from 0 to the bound.
#[derive(Clone, Copy)]
pub struct ShownRun {
    pub start: u8,
    pub letters: Bounded<u32, 32>,
    ghost some: { 0 < length (items letters) },
}

impl ShownRun {
    ghost use Rattle.std.specs.Prelude.{◌≡◌};
    ghost use Rattle.report.specs.Texts.{bound};

    // The last instant.
    pub fn bound(&self) -> u8
        ensures { result ≡ bound self.now }
    {
        (self.letters.len() - 1) as u8
    }
}

// What came of a script and an answer, and how many bytes tell it.
#[derive(Clone, Copy)]
pub struct Told {
    pub outcome: Result<Report, Refusal>,
    pub bytes: usize,
}
