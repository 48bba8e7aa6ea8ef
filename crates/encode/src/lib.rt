// The clause lists of rows, handed one clause after another to a receiver.
#![tactic(auto)]

ghost use Rattle.std.specs.Prelude.{suc, ◌+◌, ◌≤◌, [], ◌∷◌};
ghost use Rattle.mtl.specs.Shapes.{unit};
ghost use Rattle.mtl.specs.Rows.{distance};
ghost use Rattle.mtl.specs.Lists.{begin, block, row_clauses};
ghost use Rattle.encode.specs.Reception.{Reception};

mod emit;
mod instant;
mod part;
mod place;
mod rows;
mod runs;
mod step;

use cnf::clause::Literal;
use emit::{write_claim, write_part};
use mtl::layout::{inside_at, starts_at};
use mtl::row::Row;
use part::{Claim, Guard, Part};
pub use place::Place;
use rows::{write_body, write_past, write_starts};

// What clauses can be handed to.
pub trait Receiver {
    ghost reception: { Reception Self };

    fn put(&mut self, clause: &[Literal])
        requires { reception.fits self.old (clause.now ∷ []) }
        ensures { reception.took self.old (clause.now ∷ []) self.new };
}

// The clauses of every run with the last instant k: where its loop starts.
pub fn write_begin<R: Receiver>(out: &mut R, k: u32)
    requires room { R.Receiver.reception.fits out.old (begin k) }
    requires small { k ≤ 31 }
    ensures { R.Receiver.reception.took out.old (begin k) out.new }
{
    let k = k as u8;
    let p = Place {
        k,
        a: 0,
        b: 0,
        x: 0,
    };
    write_starts(out, k);
    write_part(out, p, Guard::Inside, Part::Apart, k);
    write_claim(out, None, Claim::Same(inside_at(k, 0), starts_at(0)));
    write_part(out, p, Guard::Always, Part::Rise, k);
}

// The clauses of a row at its place.
pub fn write_row<R: Receiver>(out: &mut R, place: Place, row: Row)
    requires room { R.Receiver.reception.fits out.old (row_clauses place.k (block place.a) (block place.b) (block place.x) (block (place.x + suc place.k)) row) }
    requires reach { distance row ≤ 31 }
    ensures { R.Receiver.reception.took out.old (row_clauses place.k (block place.a) (block place.b) (block place.x) (block (place.x + suc place.k)) row) out.new }
{
    write_body(out, place, row);
    write_past(out, place, row);
}

// The clause of a requirement.
pub fn write_unit<R: Receiver>(out: &mut R, literal: Literal)
    requires { R.Receiver.reception.fits out.old (unit literal) }
    ensures { R.Receiver.reception.took out.old (unit literal) out.new }
{
    out.put(&[literal]);
}
