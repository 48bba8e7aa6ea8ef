// What a job knows, for those who read it.
ghost use Rattle.std.specs.Prelude.{◌≡◌, ◌≤◌, length};
ghost use Rattle.mtl.specs.Layout.{rows_of};
ghost use Rattle.job.specs.Calls.{highest};
ghost use Rattle.job.specs.States.{state_of};

use crate::state::Setup;
use mtl::table::Table;

impl Setup {
    // No job has more variables.
    pub const MOST_VARIABLES: usize = 2112;

    pub fn is_begun(&self) -> bool
        ensures { result ≡ (state_of self.now).begun }
    {
        self.bound.is_some()
    }

    // The bound, 0 before begin.
    pub fn bound(&self) -> u8
        ensures value { result ≡ (state_of self.now).bound }
        ensures low { result ≤ 31 }
    {
        self.bound.unwrap_or(0)
    }

    pub fn table(&self) -> &Table
        ensures { rows_of result.now ≡ (state_of self.now).rows }
    {
        &self.table
    }

    // The number of rows, which is the number of the next one.
    pub(crate) fn rows(&self) -> u8
        ensures { result ≡ length (state_of self.now).rows }
    {
        self.table.len() as u8
    }

    // The job's highest variable, 0 before begin.
    pub fn highest(&self) -> u32
        ensures value { result ≡ highest (state_of self.now) }
        ensures bound { result ≤ 2112 }
    {
        self.bound.map_or(0, |k| self.table.highest(k))
    }
}
