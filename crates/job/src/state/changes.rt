// The making of what a job knows, and its changes by an accepted call.
ghost use Rattle.std.specs.Prelude.{◌≡◌, ◌<◌, ◌≤◌, true, length};
ghost use Rattle.mtl.specs.Tables.{fits_after};
ghost use Rattle.job.specs.Calls.{fresh, with_bound, with_row, with_requirement};
ghost use Rattle.job.specs.States.{state_of};

use crate::state::Setup;
use bounded::Bounded;
use mtl::requirement::Requirement;
use mtl::row::Row;
use mtl::table::Table;

impl Setup {
    pub(crate) fn new() -> Setup
        ensures { state_of result ≡ fresh }
    {
        let blank = Requirement {
            row: 0,
            instant: 0,
            value: false,
        };
        Setup {
            bound: None,
            table: Table::new(),
            kept: Bounded::new(blank),
        }
    }

    // Begins with the bound k.
    pub(crate) fn open(&mut self, k: u8)
        requires { k ≤ 31 }
        ensures { state_of self.new ≡ with_bound (state_of self.old) k }
    {
        self.bound = Some(k);
    }

    pub(crate) fn add(&mut self, row: Row)
        requires room { length (state_of self.old).rows < 32 }
        requires fit { fits_after (state_of self.old).rows row ≡ true }
        ensures { state_of self.new ≡ with_row (state_of self.old) row }
    {
        self.table.push(row);
    }

    pub(crate) fn keep(&mut self, requirement: Requirement)
        requires { length (state_of self.old).kept < 64 }
        ensures { state_of self.new ≡ with_requirement (state_of self.old) requirement }
    {
        self.kept.push(requirement);
    }
}
