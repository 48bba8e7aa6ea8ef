// What a job knows besides its sink.
ghost use Rattle.std.specs.Prelude.{◌≤◌};
ghost use Rattle.std.specs.Option.{ForSome};

mod changes;
mod lists;
mod questions;
mod reading;

use bounded::Bounded;
use mtl::requirement::Requirement;
use mtl::table::Table;

const MOST_REQUIREMENTS: usize = 64;

#[derive(Clone, Copy)]
pub struct Setup {
    // none until the job is begun
    bound: Option<u8>,
    table: Table,
    // in the order in which they were accepted
    kept: Bounded<Requirement, MOST_REQUIREMENTS>,
    ghost low: { ForSome bound (λ k. k ≤ 31) },
}
