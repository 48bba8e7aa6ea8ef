// What a list of clauses asks of a sink: the length of its longest clause, and its cells. The highest variable is the job's, not
// the list's.
ghost use Rattle.std.specs.Prelude.{List, reverse};
ghost use Rattle.cnf.specs.declared.clause.Literal.{Literal};
ghost use Rattle.mtl.specs.declared.row.Row.{Row};
ghost use Rattle.mtl.specs.Shapes.{unit};
ghost use Rattle.mtl.specs.Lists.{begin, added};
ghost use Rattle.job.specs.Costs.{Costs};

use mtl::cells::{begin_cells, begin_longest, row_cells, row_longest};
use mtl::row::Row as TableRow;

#[derive(Clone, Copy)]
pub(crate) struct Cost {
    pub longest: u32,
    pub cells: u32,
}

impl Cost {
    pub(crate) fn of_begin(k: u8) -> Cost
        ensures { Costs (begin k) result }
    {
        Cost {
            longest: begin_longest(k),
            cells: begin_cells(k),
        }
    }

    // Of a row, whatever rows stand before it.
    pub(crate) fn of_row(k: u8, row: TableRow) -> Cost
        ensures { (rows : List Row) → Costs (added k (reverse rows) row) result }
    {
        Cost {
            longest: row_longest(k, row),
            cells: row_cells(k, row),
        }
    }

    // Of a requirement: one clause of one literal.
    pub(crate) fn of_unit() -> Cost
        ensures { (p : Literal) → Costs (unit p) result }
    {
        Cost {
            longest: 1,
            cells: 2,
        }
    }
}
