// A table of rows.
ghost use Rattle.std.specs.Prelude.{◌≡◌, ◌<◌, ◌≤◌, true, [], ◌∷◌, ◌++◌, length};
ghost use Rattle.bounded.specs.Items.{items};
ghost use Rattle.mtl.specs.Rows.{operands};
ghost use Rattle.mtl.specs.Tables.{row_at, all_below, has_signal, row_of, is_new, fits_after, lawful};

use crate::row::Row;
use bounded::Bounded;

// Up to 32 rows, the oldest first. The operands of each are earlier rows, distances and signals are at most 31, and no signal
// has two rows.
#[derive(Clone, Copy)]
pub struct Table {
    rows: Bounded<Row, { Table::MOST_ROWS }>,
    ghost lawful: { lawful (items rows) ≡ true },
}

impl Table {
    ghost use Rattle.mtl.specs.Layout.{rows_of};

    pub const MOST_ROWS: usize = 32;

    pub fn new() -> Table
        ensures { rows_of result ≡ [] }
    {
        Table {
            rows: Bounded::new(Row::Signal(0)),
        }
    }

    pub fn len(&self) -> usize
        ensures value { result ≡ length (rows_of self.now) }
        ensures few { result ≤ 32 }
    {
        self.rows.len()
    }

    pub fn as_slice(&self) -> &[Row]
        ensures { result.now ≡ rows_of self.now }
    {
        self.rows.as_slice()
    }

    // Row n, if there is one.
    pub fn row(&self, n: u8) -> Option<Row>
        ensures { result ≡ row_at (rows_of self.now) n }
    {
        self.as_slice().get(n as usize).copied()
    }

    // The number of the signal's row, if it has one.
    pub fn row_of(&self, a: u8) -> Option<u8>
        ensures { result ≡ row_of 0 a (rows_of self.now) }
    {
        self.as_slice()
            .iter()
            .position(|row| row.signal() == Some(a))
            .map(|n| n as u8)
    }

    // Whether the signal has a row.
    #[tactic(auto, using(crate::proofs::Tables::has_row))]
    pub fn has_signal(&self, a: u8) -> bool
        ensures { result ≡ has_signal a (rows_of self.now) }
    {
        self.row_of(a).is_some()
    }

    // Whether the rows that the row names are there.
    pub fn has_operands(&self, row: Row) -> bool
        ensures { result ≡ all_below (length (rows_of self.now)) (operands row) }
    {
        let operands = row.operator().operands;
        (operands < 1 || (row.first() as usize) < self.len())
            && (operands < 2 || (row.second() as usize) < self.len())
    }

    // Whether the signal, if any, is at most 31 and has no row yet.
    pub fn is_new(&self, signal: Option<u8>) -> bool
        ensures { result ≡ is_new (rows_of self.now) signal }
    {
        signal.is_none_or(|a| a <= Row::HIGHEST_SIGNAL && !self.has_signal(a))
    }

    // Whether the row may come next.
    pub fn fits(&self, row: Row) -> bool
        ensures { result ≡ fits_after (rows_of self.now) row }
    {
        self.has_operands(row)
            && row.distance() <= Row::HIGHEST_DISTANCE
            && self.is_new(row.signal())
    }

    #[tactic(auto, using(crate::proofs::Tables::lawful_push))]
    pub fn push(&mut self, row: Row)
        requires room { length (rows_of self.old) < 32 }
        requires fit { fits_after (rows_of self.old) row ≡ true }
        ensures { rows_of self.new ≡ rows_of self.old ++ row ∷ [] }
    {
        self.rows.push(row);
    }
}
