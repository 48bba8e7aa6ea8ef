// The clauses of each kind of row.
//
// The receiver and the place are two parameters, for the reason that emit.rt gives.
ghost use Rattle.std.specs.Prelude.{◌≡◌, suc, ◌+◌, ◌≤◌, [], ◌∷◌, ◌++◌};
ghost use Rattle.cnf.specs.Clauses.{opposite};
ghost use Rattle.mtl.specs.Shapes.{same, given, each, span};
ghost use Rattle.mtl.specs.Rows.{past, looks_back, distance};
ghost use Rattle.mtl.specs.Lists.{starts, around, seen, beyond, body, closing, closing_of};
ghost use Rattle.encode.specs.Parts.{lits_a, lits_b, lits_x, lits_e, linked, subject, past_of, meant, claimed_at, clauses_at};

use super::Receiver;
use super::emit::{put_clause, write_claim, write_part};
use super::instant::Instant;
use super::part::{Back, Claim, Guard, Link, Part};
use super::place::Place;
use super::runs::starts_up_to;
use mtl::layout::inside_at;
use mtl::row::Row;

// The clauses of a part at every instant, under a guard.
fn write_whole<R: Receiver>(out: &mut R, p: Place, guard: Guard, part: Part)
    requires { R.Receiver.reception.fits out.old (each 0 (suc p.k) (clauses_at p guard part)) }
    ensures { R.Receiver.reception.took out.old (each 0 (suc p.k) (clauses_at p guard part)) out.new }
{
    write_part(out, p, guard, part, p.k + 1);
}

fn write_every<R: Receiver>(out: &mut R, p: Place, part: Part)
    requires { R.Receiver.reception.fits out.old (each 0 (suc p.k) (claimed_at p part)) }
    ensures { R.Receiver.reception.took out.old (each 0 (suc p.k) (claimed_at p part)) out.new }
{
    write_whole(out, p, Guard::Always, part);
}

// The clause that the loop starts somewhere.
pub fn write_starts<R: Receiver>(out: &mut R, k: u8)
    requires room { R.Receiver.reception.fits out.old (span starts 0 (suc k) ∷ []) }
    requires small { k ≤ 31 }
    ensures { R.Receiver.reception.took out.old (span starts 0 (suc k) ∷ []) out.new }
{
    out.put(starts_up_to(k).as_slice());
}

// A row whose value follows from the next instant's, with the loop start after the last one.
fn write_around<R: Receiver>(out: &mut R, p: Place, by: Link)
    requires { R.Receiver.reception.fits out.old (around p.k (linked p by)) }
    ensures { R.Receiver.reception.took out.old (around p.k (linked p by)) out.new }
{
    write_part(out, p, Guard::Always, Part::Forward(by), p.k);
    write_whole(out, p, Guard::Start, Part::Around(by));
}

// Whether the second operand, or its opposite where v is false, was true since the loop start.
fn write_seen<R: Receiver>(out: &mut R, p: Place, v: bool)
    requires { R.Receiver.reception.fits out.old (seen p.k (lits_e p) (λ i. given v (lits_b p i))) }
    ensures { R.Receiver.reception.took out.old (seen p.k (lits_e p) (λ i. given v (lits_b p i))) out.new }
{
    let b = p.second(0).given(v);
    write_claim(out, None, Claim::Both(p.extra(0), inside_at(p.k, 0), b));
    write_part(out, p, Guard::Always, Part::Seen(v), p.k);
}

// A row whose value follows from its value an instant before, and at 0 is its second operand's.
fn write_since<R: Receiver>(out: &mut R, p: Place, by: Link)
    requires { R.Receiver.reception.fits out.old (same (lits_x p 0) (lits_b p 0) ++ each 0 p.k (λ i. linked p by (suc i) i)) }
    ensures { R.Receiver.reception.took out.old (same (lits_x p 0) (lits_b p 0) ++ each 0 p.k (λ i. linked p by (suc i) i)) out.new }
{
    write_claim(out, None, Claim::Same(p.own(0), p.second(0)));
    write_part(out, p, Guard::Always, Part::Backward(by), p.k);
}

// The first operand at the t instants after the last one.
fn write_beyond<R: Receiver>(out: &mut R, p: Place, t: Instant)
    requires { R.Receiver.reception.fits out.old (beyond p.k t.value (lits_e p) (lits_a p)) }
    ensures { R.Receiver.reception.took out.old (beyond p.k t.value (lits_e p) (lits_a p)) out.new }
{
    for j in 0..t.value {
        write_whole(out, p, Guard::Start, Part::Beyond(Instant { value: j }));
    }
}

// A row that looks t instants ahead.
fn write_ahead<R: Receiver>(out: &mut R, p: Place, part: Part, t: Instant)
    requires { R.Receiver.reception.fits out.old (each 0 (suc p.k) (claimed_at p part) ++ beyond p.k t.value (lits_e p) (lits_a p)) }
    ensures { R.Receiver.reception.took out.old (each 0 (suc p.k) (claimed_at p part) ++ beyond p.k t.value (lits_e p) (lits_a p)) out.new }
{
    write_every(out, p, part);
    write_beyond(out, p, t);
}

// The row that awaits its second operand, or its opposite where v is false, and sees it at the latest in the loop.
fn write_until<R: Receiver>(out: &mut R, p: Place, by: Link, v: bool)
    requires { R.Receiver.reception.fits out.old (around p.k (linked p by) ++ seen p.k (lits_e p) (λ i. given v (lits_b p i)) ++ ((opposite (given v (lits_x p p.k)) ∷ lits_e p p.k ∷ []) ∷ [])) }
    ensures { R.Receiver.reception.took out.old (around p.k (linked p by) ++ seen p.k (lits_e p) (λ i. given v (lits_b p i)) ++ ((opposite (given v (lits_x p p.k)) ∷ lits_e p p.k ∷ []) ∷ [])) out.new }
{
    write_around(out, p, by);
    write_seen(out, p, v);
    let last = p.own(p.k).given(v);
    put_clause(out, None, last.opposite(), &[p.extra(p.k)]);
}

// How the past agrees with the loop, wherever it starts.
fn write_closing<R: Receiver>(out: &mut R, p: Place, s: Back)
    requires { R.Receiver.reception.fits out.old (closing p.k s.reach.value s.before (past_of p s)) }
    ensures { R.Receiver.reception.took out.old (closing p.k s.reach.value s.before (past_of p s)) out.new }
{
    for l in 0..p.k + 1 {
        let at = Instant { value: l };
        write_part(
            out,
            p,
            Guard::StartAt(at),
            Part::Closed(s, at),
            s.reach.value,
        );
    }
}

// The clauses that close a row's past.
pub fn write_past<R: Receiver>(out: &mut R, p: Place, row: Row)
    requires room { R.Receiver.reception.fits out.old (closing_of p.k (lits_a p) (lits_x p) (past row)) }
    requires reach { distance row ≤ 31 }
    ensures { R.Receiver.reception.took out.old (closing_of p.k (lits_a p) (lits_x p) (past row)) out.new }
{
    if let Some(s) = past_of(row) {
        write_closing(out, p, s);
    }
}

// What a row of the past depends on before the loop.
fn past_of(row: Row) -> Option<Back>
    requires { distance row ≤ 31 }
    ensures { meant result ≡ past row }
{
    match row {
        Row::Previous(_) => back(false, 1, false),
        Row::WeakPrevious(_) => back(false, 1, true),
        Row::Since(_, _) => back(true, 1, false),
        Row::Trigger(_, _) => back(true, 1, true),
        Row::Ago(_, t) => back(false, t, false),
        Row::Lately(_, t) => back(false, t, false),
        Row::Steadily(_, t) => back(false, t, true),
        _ => None,
    }
}

fn back(own: bool, reach: u8, before: bool) -> Option<Back>
    requires { reach ≤ 31 }
    ensures { meant result ≡ looks_back (subject own) reach before }
{
    Some(Back {
        own,
        reach: Instant { value: reach },
        before,
    })
}

// The clauses of a row but for those that close its past.
pub fn write_body<R: Receiver>(out: &mut R, p: Place, row: Row)
    requires room { R.Receiver.reception.fits out.old (body p.k (lits_a p) (lits_b p) (lits_x p) (lits_e p) row) }
    requires reach { distance row ≤ 31 }
    ensures { R.Receiver.reception.took out.old (body p.k (lits_a p) (lits_b p) (lits_x p) (lits_e p) row) out.new }
{
    let one = Instant { value: 1 };
    let t = reach_of(row);
    match row {
        Row::Signal(_) => {}
        Row::Not(_) => write_every(out, p, Part::Not),
        Row::And(_, _) => write_every(out, p, Part::And),
        Row::Or(_, _) => write_every(out, p, Part::Or),
        Row::Next(_) => write_around(out, p, Link::Next),
        Row::Until(_, _) => write_until(out, p, Link::Until, true),
        Row::Release(_, _) => write_until(out, p, Link::Release, false),
        Row::After(_, _) => write_ahead(out, p, Part::After(t), t),
        Row::Within(_, _) => write_ahead(out, p, Part::Within(t), t),
        Row::Throughout(_, _) => write_ahead(out, p, Part::Throughout(t), t),
        Row::Previous(_) => write_every(out, p, Part::Delayed(one, false)),
        Row::WeakPrevious(_) => write_every(out, p, Part::Delayed(one, true)),
        Row::Since(_, _) => write_since(out, p, Link::Until),
        Row::Trigger(_, _) => write_since(out, p, Link::Release),
        Row::Ago(_, _) => write_every(out, p, Part::Delayed(t, false)),
        Row::Lately(_, _) => write_every(out, p, Part::Lately(t)),
        Row::Steadily(_, _) => write_every(out, p, Part::Steadily(t)),
    }
}

// A row's distance.
fn reach_of(row: Row) -> Instant
    requires { distance row ≤ 31 }
    ensures { result.value ≡ distance row }
{
    Instant {
        value: row.distance(),
    }
}
