// The run of an assignment.
ghost use Rattle.std.specs.Prelude.{◌≡◌, ℕ, ◌+◌, ◌<◌, ◌≤◌, length, if◌then◌else◌, Some, None, Ok, Err, nat_eq};
ghost use Rattle.sinks.specs.Models.{assigned};
ghost use Rattle.mtl.specs.Layout.{rows_of, newest_of};
ghost use Rattle.mtl.specs.Lists.{top};
ghost use Rattle.job.specs.States.{state_of};
ghost use Rattle.evaluate.specs.Letters.{holds};
ghost use Rattle.witness.specs.Shown.{starts_true, start_below, run_answer, shown, LettersShown, ComesOut};

use crate::refusal::Refusal;
use job::state::Setup;
use mtl::table::Table;

// The bytes of an assignment for a table's rows.
#[derive(Clone, Copy)]
struct Assignment<'a> {
    table: &'a Table,
    bound: u8,
    bytes: &'a [u8],
    ghost low: { bound ≤ 31 },
    ghost whole: { top bound (newest_of table.now) ≤ length bytes.now + 1 },
}

impl Assignment<'_> {
    // Whether it shows signal a at instant i.
    fn shows(&self, i: u8, a: u8) -> bool
        requires { i ≤ self.now.bound }
        ensures { result ≡ shown self.now.bound (assigned self.now.bytes.now) (rows_of self.now.table.now) i a }
    {
        match self.table.row_of(a) {
            Some(n) => self.bytes[self.table.value(self.bound, n, i).variable as usize - 1] == 1,
            None => false,
        }
    }

    // The letter of instant i.
    fn letter(&self, i: u8) -> u32
        requires { i ≤ self.now.bound }
        ensures { (a : ℕ) → a < 32 → holds result a ≡ shown self.now.bound (assigned self.now.bytes.now) (rows_of self.now.table.now) i a }
    {
        let mut letter = 0;
        for a in (0..32).rev() {
            letter = 2 * letter + u32::from(self.shows(i, a));
        }
        letter
    }

    // Writes the letter of each instant.
    fn write_letters(&self, letters: &mut [u32])
        requires { length letters.old ≡ self.now.bound + 1 }
        ensures { LettersShown self.now.bound (assigned self.now.bytes.now) (rows_of self.now.table.now) letters.new }
    {
        for (i, letter) in letters.iter_mut().enumerate() {
            *letter = self.letter(i as u8);
        }
    }
}

// The loop start, if just one is marked.
fn find_start(k: u8, area: &[u8]) -> Option<u8>
    requires { (k ≤ 31) × (k < length area.now) }
    ensures { result ≡ (if nat_eq (starts_true (assigned area.now) (k + 1)) 1 then Some (start_below (assigned area.now) (k + 1)) else None) }
{
    let starts = &area[..k as usize + 1];
    let start = starts.iter().position(|byte| *byte == 1)?;
    if starts[start + 1..].contains(&1) {
        return None;
    }
    Some(start as u8)
}

// The questions, and then the loop start.
fn ask_run(setup: &Setup, area: &[u8], letters: usize) -> Result<u8, Refusal>
    ensures { result ≡ run_answer (state_of setup.now) area.now letters }
{
    if !setup.is_begun() {
        return Err(Refusal::NotBegun);
    }
    if letters != setup.bound() as usize + 1 {
        return Err(Refusal::Letters);
    }
    if setup.highest() as usize > area.len() {
        return Err(Refusal::Room);
    }
    find_start(setup.bound(), area).ok_or(Refusal::NoStart)
}

// Answers the loop start of the run that the assignment in the area shows, and writes its letters. Signals without a row are off.
pub fn run(setup: &Setup, area: &[u8], letters: &mut [u32]) -> Result<u8, Refusal>
    ensures answer { result ≡ run_answer (state_of setup.now) area.now (length letters.old) }
    ensures wrote { elim result [ Ok _ ↦ LettersShown (state_of setup.now).bound (assigned area.now) (state_of setup.now).rows letters.new | Err _ ↦ letters.new ≡ letters.old ] }
    ensures shows { ComesOut (state_of setup.now) area.now result letters.new }
{
    let start = ask_run(setup, area, letters.len())?;
    let assignment = Assignment {
        table: setup.table(),
        bound: setup.bound(),
        bytes: area,
    };
    assignment.write_letters(letters);
    Ok(start)
}
