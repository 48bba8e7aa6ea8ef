// The clauses of claims and parts, handed to a receiver.
//
// The receiver and the guard are two parameters. A struct of both would hold a loan: each of its methods had to promise too
// that it keeps the guard and the loan.
ghost use Rattle.std.specs.Prelude.{◌≡◌, ◌<◌, ◌≤◌, [], ◌∷◌, map, length};
ghost use Rattle.cnf.specs.Clauses.{opposite};
ghost use Rattle.mtl.specs.Shapes.{upto, hold, any, all, each};
ghost use Rattle.bounded.specs.Items.{items};
ghost use Rattle.encode.specs.Parts.{behind, under, claimed, clauses_at};

use super::Receiver;
use super::part::{BLANK, Claim, Guard, Part};
use super::place::Place;
use super::step::{claim_of, guard_of};
use bounded::Bounded;
use cnf::clause::Literal;

// The clause of the first literal and the rest, behind the guard.
pub fn put_clause<R: Receiver>(
    out: &mut R,
    guard: Option<Literal>,
    first: Literal,
    rest: &[Literal],
)
    requires room { R.Receiver.reception.fits out.old (behind guard (first ∷ rest.now) ∷ []) }
    requires small { length rest.now ≤ 32 }
    ensures { R.Receiver.reception.took out.old (behind guard (first ∷ rest.now) ∷ []) out.new }
{
    let mut clause: Bounded<Literal, 40> = Bounded::new(BLANK);
    if let Some(literal) = guard {
        clause.push(literal.opposite());
    }
    clause.push(first);
    clause.extend(rest);
    out.put(clause.as_slice());
}

// Each of the others in a clause with the first, behind the guard.
fn put_pairs<R: Receiver>(out: &mut R, guard: Option<Literal>, first: Literal, others: &[Literal])
    requires { R.Receiver.reception.fits out.old (map (λ y. behind guard (first ∷ y ∷ [])) others.now) }
    ensures { R.Receiver.reception.took out.old (map (λ y. behind guard (first ∷ y ∷ [])) others.now) out.new }
{
    for other in others {
        put_clause(out, guard, first, &[*other]);
    }
}

fn opposites(literals: &[Literal]) -> Bounded<Literal, 32>
    requires { length literals.now ≤ 32 }
    ensures { items result ≡ map opposite literals.now }
{
    let mut flipped = Bounded::new(BLANK);
    for literal in literals {
        flipped.push(literal.opposite());
    }
    flipped
}

// `all` is not `any` of the opposites: its clauses come in the other order, the pairs first.
fn write_any<R: Receiver>(out: &mut R, guard: Option<Literal>, x: Literal, gs: &[Literal])
    requires room { R.Receiver.reception.fits out.old (map (behind guard) (any x gs.now)) }
    requires small { length gs.now ≤ 32 }
    ensures { R.Receiver.reception.took out.old (map (behind guard) (any x gs.now)) out.new }
{
    let flipped = opposites(gs);
    put_clause(out, guard, x.opposite(), gs);
    put_pairs(out, guard, x, flipped.as_slice());
}

fn write_all<R: Receiver>(out: &mut R, guard: Option<Literal>, x: Literal, gs: &[Literal])
    requires room { R.Receiver.reception.fits out.old (map (behind guard) (all x gs.now)) }
    requires small { length gs.now ≤ 32 }
    ensures { R.Receiver.reception.took out.old (map (behind guard) (all x gs.now)) out.new }
{
    let flipped = opposites(gs);
    put_pairs(out, guard, x.opposite(), gs);
    put_clause(out, guard, x, flipped.as_slice());
}

// The first literal in a clause with each of two lists.
fn put_two<R: Receiver>(
    out: &mut R,
    guard: Option<Literal>,
    first: Literal,
    a: &[Literal],
    b: &[Literal],
)
    requires room { R.Receiver.reception.fits out.old (map (behind guard) ((first ∷ a.now) ∷ (first ∷ b.now) ∷ [])) }
    requires small { (length a.now ≤ 32) × (length b.now ≤ 32) }
    ensures { R.Receiver.reception.took out.old (map (behind guard) ((first ∷ a.now) ∷ (first ∷ b.now) ∷ [])) out.new }
{
    put_clause(out, guard, first, a);
    put_clause(out, guard, first, b);
}

// `hold` is `upto` of the opposites, but for the order of the clauses, which is turned too.
fn write_upto<R: Receiver>(
    out: &mut R,
    guard: Option<Literal>,
    x: Literal,
    b: Literal,
    a: Literal,
    y: Literal,
)
    requires { R.Receiver.reception.fits out.old (map (behind guard) (upto x b a y)) }
    ensures { R.Receiver.reception.took out.old (map (behind guard) (upto x b a y)) out.new }
{
    put_two(out, guard, x.opposite(), &[b, a], &[b, y]);
    put_two(
        out,
        guard,
        x,
        &[b.opposite()],
        &[a.opposite(), y.opposite()],
    );
}

fn write_hold<R: Receiver>(
    out: &mut R,
    guard: Option<Literal>,
    x: Literal,
    b: Literal,
    a: Literal,
    y: Literal,
)
    requires { R.Receiver.reception.fits out.old (map (behind guard) (hold x b a y)) }
    ensures { R.Receiver.reception.took out.old (map (behind guard) (hold x b a y)) out.new }
{
    let c = b.opposite();
    put_two(out, guard, x.opposite(), &[b], &[a, y]);
    put_two(out, guard, x, &[c, a.opposite()], &[c, y.opposite()]);
}

// The clauses of a claim, which bind only where the guard is true.
pub fn write_claim<R: Receiver>(out: &mut R, guard: Option<Literal>, claim: Claim)
    requires { R.Receiver.reception.fits out.old (under guard (claimed claim)) }
    ensures { R.Receiver.reception.took out.old (under guard (claimed claim)) out.new }
{
    match claim {
        Claim::Unit(p) => put_clause(out, guard, p, &[]),
        Claim::Same(x, y) => write_any(out, guard, x, &[y]),
        Claim::Both(x, a, b) => write_all(out, guard, x, &[a, b]),
        Claim::Either(x, a, b) => write_any(out, guard, x, &[a, b]),
        Claim::Upto(x, b, a, y) => write_upto(out, guard, x, b, a, y),
        Claim::Hold(x, b, a, y) => write_hold(out, guard, x, b, a, y),
        Claim::Any(x, gs) => write_any(out, guard, x, gs.as_slice()),
        Claim::All(x, gs) => write_all(out, guard, x, gs.as_slice()),
    }
}

// The clauses of a part at the instants below n.
pub fn write_part<R: Receiver>(out: &mut R, p: Place, guard: Guard, part: Part, n: u8)
    requires room { R.Receiver.reception.fits out.old (each 0 n (clauses_at p guard part)) }
    requires small { n ≤ 32 }
    ensures { R.Receiver.reception.took out.old (each 0 n (clauses_at p guard part)) out.new }
{
    for i in 0..n {
        write_claim(out, guard_of(p, guard, i), claim_of(p, part, i));
    }
}
