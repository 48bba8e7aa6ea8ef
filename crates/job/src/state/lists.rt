// What the list of a call is made of, and what it asks of a sink.
ghost use Rattle.std.specs.Prelude.{◌≡◌, ◌≤◌, true, reverse};
ghost use Rattle.mtl.specs.Rows.{distance};
ghost use Rattle.mtl.specs.Shapes.{given};
ghost use Rattle.mtl.specs.Lists.{value};
ghost use Rattle.job.specs.Calls.{highest, define_list, with_bound, with_row};
ghost use Rattle.job.specs.Costs.{Costs};
ghost use Rattle.job.specs.States.{state_of, Placed};

use crate::cost::Cost;
use crate::state::Setup;
use cnf::clause::Literal;
use encode::Place;
use mtl::layout::block_size;
use mtl::requirement::Requirement;
use mtl::row::Row;

impl Setup {
    // The highest variable that the job would have with the bound k.
    pub(crate) fn highest_at(&self, k: u8) -> u32
        ensures { result ≡ highest (with_bound (state_of self.now) k) }
    {
        self.table.highest(k)
    }

    // Where the row would lie.
    pub(crate) fn place(&self, row: Row) -> Place
        requires begun { (state_of self.now).begun ≡ true }
        requires near { distance row ≤ 31 }
        ensures { Placed (state_of self.now) row result }
    {
        let k = self.bound();
        Place {
            k,
            a: self.table.start(k, row.first()),
            b: self.table.start(k, row.second()),
            x: self.table.top(k),
        }
    }

    // The highest variable that the job would have with the row.
    pub(crate) fn highest_with(&self, row: Row) -> u32
        requires begun { (state_of self.now).begun ≡ true }
        requires near { distance row ≤ 31 }
        ensures { result ≡ highest (with_row (state_of self.now) row) }
    {
        let k = self.bound();
        self.table.top(k) + block_size(k, row) - 1
    }

    // What the row's list would ask of a sink.
    pub(crate) fn cost_of(&self, row: Row) -> Cost
        ensures { Costs (define_list (state_of self.now) row) result }
    {
        Cost::of_row(self.bound(), row)
    }

    // The literal that a requirement asks for.
    pub(crate) fn literal(&self, requirement: Requirement) -> Literal
        ensures { result ≡ given requirement.value (value (state_of self.now).bound (reverse (state_of self.now).rows) requirement.row requirement.instant) }
    {
        self.table
            .value(self.bound(), requirement.row, requirement.instant)
            .given(requirement.value)
    }
}
