// Hands a call's list to a sink, clause by clause and in order.
ghost use Rattle.std.specs.Prelude.{suc, ◌+◌, ◌≤◌};
ghost use Rattle.mtl.specs.Rows.{distance};
ghost use Rattle.mtl.specs.Shapes.{unit};
ghost use Rattle.mtl.specs.Lists.{begin, block, row_clauses};
ghost use Rattle.job.specs.Feeding.{Fits, TakenAll};

use crate::feed::Feed;
use cnf::clause::Literal;
use cnf::sink::Sink;
use encode::{Place, write_begin, write_row, write_unit};
use mtl::row::Row;

pub(crate) fn hand_begin<S: Sink>(sink: &mut S, k: u8)
    requires room { Fits S.Sink.model (begin k) sink.old }
    requires low { k ≤ 31 }
    ensures { TakenAll S.Sink.model (begin k) sink.old sink.new }
{
    let mut feed = Feed { sink };
    write_begin(&mut feed, k as u32);
}

pub(crate) fn hand_row<S: Sink>(sink: &mut S, place: Place, row: Row)
    requires room { Fits S.Sink.model (row_clauses place.k (block place.a) (block place.b) (block place.x) (block (place.x + suc place.k)) row) sink.old }
    requires near { distance row ≤ 31 }
    ensures { TakenAll S.Sink.model (row_clauses place.k (block place.a) (block place.b) (block place.x) (block (place.x + suc place.k)) row) sink.old sink.new }
{
    let mut feed = Feed { sink };
    write_row(&mut feed, place, row);
}

pub(crate) fn hand_unit<S: Sink>(sink: &mut S, literal: Literal)
    requires { Fits S.Sink.model (unit literal) sink.old }
    ensures { TakenAll S.Sink.model (unit literal) sink.old sink.new }
{
    let mut feed = Feed { sink };
    write_unit(&mut feed, literal);
}
