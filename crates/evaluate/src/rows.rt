// Rows over the lines of their operands, and whole tables.
ghost use Rattle.std.specs.Prelude.{◌≡◌, ◌+◌, ◌*◌, ◌<◌, ◌≤◌, true, length, Ok, Err, Decides};
ghost use Rattle.mtl.specs.Tables.{lawful};
ghost use Rattle.evaluate.specs.Lines.{line, Meant, Closing, Ready};
ghost use Rattle.evaluate.specs.Truths.{row_at, older, Known, Written, Evaluated, UnsettledAt};

use crate::lines::Lines;
use crate::run::{Run, holds};
use mtl::row::Row;

// The run is not settled for this row, and for each earlier one it is.
#[derive(Debug, Clone, Copy, PartialEq, Eq)]
pub struct Unsettled {
    pub row: u8,
}

// The truth at instant i of a row whose operands have lines.
fn value_at(letters: &[u32], lines: &Lines, row: Row, i: usize) -> bool
    requires { (i < length letters.now) × (i ≤ lines.now.lasso.bound) × Ready lines.now.count row }
    ensures { Decides result (Meant lines.now.lasso.bound lines.now.lasso.start letters.now (line lines.now.lasso.bound lines.now.bytes.now) row i) }
{
    match row {
        Row::Signal(a) => holds(letters[i], a),
        Row::Not(a) => !lines.bit(a, i),
        Row::And(a, b) => lines.bit(a, i) && lines.bit(b, i),
        Row::Or(a, b) => lines.bit(a, i) || lines.bit(b, i),
        Row::Next(a) => lines.round(a, i + 1),
        Row::Until(a, b) => lines.until(a, b, i, true),
        Row::Release(a, b) => lines.release(a, b, i),
        Row::After(a, t) => lines.round(a, i + t as usize),
        Row::Within(a, t) => lines.met_ahead(a, i, t as usize, true),
        Row::Throughout(a, t) => lines.kept_ahead(a, i, t as usize),
        Row::Previous(a) => lines.before(a, i, 1, false),
        Row::WeakPrevious(a) => lines.before(a, i, 1, true),
        Row::Since(a, b) => lines.since(a, b, i, true),
        Row::Trigger(a, b) => lines.trigger(a, b, i),
        Row::Ago(a, t) => lines.before(a, i, t as usize, false),
        Row::Lately(a, t) => lines.met_back(a, i, t as usize),
        Row::Steadily(a, t) => lines.kept_back(a, i, t as usize),
    }
}

// Writes the truth of row n at each instant into its line.
fn write_row(run: &Run, rows: &[Row], n: usize, work: &mut [u8])
    requires sizes { (n < length rows.now) × (n < 32) × ((n + 1) * (run.now.lasso.bound + 1) ≤ length work.old) × Ready n (row_at rows.now n) }
    requires known_before { Known run.now.lasso.bound run.now.lasso.start run.now.letters.now (older rows.now n) work.old n }
    ensures known { Known run.now.lasso.bound run.now.lasso.start run.now.letters.now (older rows.now n) work.new n }
    ensures written { Written run.now.lasso.bound run.now.lasso.start run.now.letters.now (older rows.now n) work.new n (row_at rows.now n) (run.now.lasso.bound + 1) }
{
    let instants = run.lasso.instants();
    let (earlier, rest) = work.split_at_mut(n * instants);
    let (line, _) = rest.split_at_mut(instants);
    let lines = Lines {
        bytes: earlier,
        lasso: run.lasso,
        count: n,
    };
    for (i, byte) in line.iter_mut().enumerate() {
        *byte = u8::from(value_at(run.letters, &lines, rows[n], i));
    }
}

// Whether the loop closes on the subject of a row, whose line is n.
fn closes_on(lines: &Lines, n: u8, row: Row) -> bool
    requires { (n < lines.now.count) × Ready n row }
    ensures { Decides result (Closing lines.now.lasso.bound lines.now.lasso.start (line lines.now.lasso.bound lines.now.bytes.now) (line lines.now.lasso.bound lines.now.bytes.now n) row) }
{
    match row {
        Row::Previous(a) => lines.closes(a, 1, false),
        Row::WeakPrevious(a) => lines.closes(a, 1, true),
        Row::Since(_, _) => lines.closes(n, 1, false),
        Row::Trigger(_, _) => lines.closes(n, 1, true),
        Row::Ago(a, t) => lines.closes(a, t as usize, false),
        Row::Lately(a, t) => lines.closes(a, t as usize, false),
        Row::Steadily(a, t) => lines.closes(a, t as usize, true),
        _ => true,
    }
}

// Writes the truth of each row at each instant into its line, row by row, up to the first row for which the run is not settled.
pub fn evaluate(run: &Run, rows: &[Row], work: &mut [u8]) -> Result<(), Unsettled>
    requires { (length rows.now ≤ 32) × (lawful rows.now ≡ true) × (length rows.now * (run.now.lasso.bound + 1) ≤ length work.old) }
    ensures { elim result [ Ok _ ↦ Evaluated run.now.lasso.bound run.now.lasso.start run.now.letters.now rows.now work.new | Err e ↦ UnsettledAt run.now.lasso.bound run.now.lasso.start run.now.letters.now rows.now e.row ] }
{
    for (n, row) in rows.iter().enumerate() {
        write_row(run, rows, n, work);
        let lines = Lines {
            bytes: work,
            lasso: run.lasso,
            count: n + 1,
        };
        if !closes_on(&lines, n as u8, *row) {
            return Err(Unsettled { row: n as u8 });
        }
    }
    Ok(())
}
