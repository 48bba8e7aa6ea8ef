// The assignment of a run.
ghost use Rattle.std.specs.Prelude.{◌≡◌, ℕ, ◌+◌, ◌*◌, ◌<◌, ◌≤◌, false, ◌&&◌, length, Ok, Err, Decides, nat_le};
ghost use Rattle.mtl.specs.Layout.{rows_of};
ghost use Rattle.job.specs.Calls.{highest};
ghost use Rattle.job.specs.States.{state_of};
ghost use Rattle.evaluate.specs.Letters.{has};
ghost use Rattle.witness.specs.Fills.{SignalsKnown, EarlyYes, FillAnswer, Filled};

use crate::area::write_area;
use crate::refusal::Refusal;
use evaluate::lasso::Lasso;
use evaluate::lines::Lines;
use evaluate::rows::evaluate;
use evaluate::run::{Run, holds};
use job::state::Setup;
use mtl::table::Table;

// Whether signal a is in no letter.
fn is_unused(letters: &[u32], a: u8) -> bool
    requires { a ≤ 31 }
    ensures { Decides result ((i : ℕ) → i < length letters.now → has letters.now i a ≡ false) }
{
    letters.iter().all(|letter| !holds(*letter, a))
}

// Whether every signal that is used has a row.
fn all_known(table: &Table, letters: &[u32]) -> bool
    ensures { Decides result (SignalsKnown (rows_of table.now) letters.now) }
{
    (0..32).all(|a| table.has_signal(a) || is_unused(letters, a))
}

// Whether an area and a work area of these lengths are large enough.
fn has_room(setup: &Setup, area: usize, work: usize) -> bool
    ensures { result ≡ (nat_le (highest (state_of setup.now)) area && nat_le (length (state_of setup.now).rows * ((state_of setup.now).bound + 1)) work) }
{
    setup.highest() as usize <= area && setup.table().len() * (setup.bound() as usize + 1) <= work
}

// The questions before the one whether the run is settled, and then the run.
fn ask_fill<'a>(
    setup: &Setup,
    l: u8,
    letters: &'a [u32],
    area: usize,
    work: usize,
) -> Result<Run<'a>, Refusal>
    ensures answer { elim result [ Ok _ ↦ EarlyYes (state_of setup.now) l letters.now area work | Err e ↦ FillAnswer (state_of setup.now) l letters.now area work (Err e) ] }
    ensures run { elim result [ Ok run ↦ (run.lasso.bound ≡ (state_of setup.now).bound) × (run.lasso.start ≡ l) × (run.letters.now ≡ letters.now) | Err _ ↦ Unit {0} ] }
{
    if !setup.is_begun() {
        return Err(Refusal::NotBegun);
    }
    if letters.len() != setup.bound() as usize + 1 {
        return Err(Refusal::Letters);
    }
    if l > setup.bound() {
        return Err(Refusal::Start);
    }
    if !all_known(setup.table(), letters) {
        return Err(Refusal::Signal);
    }
    if !has_room(setup, area, work) {
        return Err(Refusal::Room);
    }
    let lasso = Lasso {
        bound: setup.bound() as usize,
        start: l as usize,
    };
    Ok(Run { lasso, letters })
}

// Writes the assignment that belongs to the run with the loop start l and these letters to the front of the area, a byte for each
// variable of the job. The work area's bytes are free afterwards.
pub fn fill(
    setup: &Setup,
    l: u8,
    letters: &[u32],
    area: &mut [u8],
    work: &mut [u8],
) -> Result<(), Refusal>
    ensures answer { FillAnswer (state_of setup.now) l letters.now (length area.old) (length work.old) result }
    ensures wrote { elim result [ Ok _ ↦ Filled (state_of setup.now) l letters.now area.old area.new | Err _ ↦ area.new ≡ area.old ] }
{
    let run = ask_fill(setup, l, letters, area.len(), work.len())?;
    let table = setup.table();
    let count = table.len();
    let rows = table.as_slice();
    evaluate(&run, rows, work)?;
    let lines = Lines {
        bytes: work,
        lasso: run.lasso,
        count,
    };
    write_area(area, &lines, rows);
    Ok(())
}
