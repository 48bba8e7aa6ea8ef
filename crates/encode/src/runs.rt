// Runs of literals.
ghost use Rattle.std.specs.Prelude.{◌≡◌, ℕ, suc, ◌<◌, ◌≤◌};
ghost use Rattle.bounded.specs.Items.{items};
ghost use Rattle.mtl.specs.Shapes.{Lits, span, down};
ghost use Rattle.mtl.specs.Lists.{starts, ahead};
ghost use Rattle.encode.specs.Parts.{lits_a, lits_e, Gives};

use super::instant::Instant;
use super::part::BLANK;
use super::place::Place;
use bounded::Bounded;
use cnf::clause::Literal;
use mtl::layout::starts_at;

// The literals of the first few instants.
fn listed<F: Fn(u8) -> Literal>(count: u8, literal_at: F) -> Bounded<Literal, 32>
    requires can { (j : ℕ) → j < count → F.pre literal_at j }
    requires few { count ≤ 32 }
    ensures { (f : Lits) → Gives (F.post literal_at) count f → items result ≡ span f 0 count }
{
    let mut literals = Bounded::new(BLANK);
    for j in 0..count {
        literals.push(literal_at(j));
    }
    literals
}

// The loop starts, up to the last instant k.
pub fn starts_up_to(k: u8) -> Bounded<Literal, 32>
    requires { k ≤ 31 }
    ensures { items result ≡ span starts 0 (suc k) }
{
    listed(k + 1, starts_at)
}

// The first operand at instant n, which may lie after the last one.
pub fn ahead_at(p: Place, n: u8) -> Literal
    ensures { result ≡ ahead p.k (lits_a p) (lits_e p) n }
{
    if n <= p.k {
        p.first(n)
    } else {
        p.extra(n - p.k - 1)
    }
}

// The first operand at instant i and the t instants after it.
pub fn run_ahead(p: Place, i: u8, t: Instant) -> Bounded<Literal, 32>
    requires { i ≤ 31 }
    ensures { items result ≡ span (ahead p.k (lits_a p) (lits_e p)) i (suc t.value) }
{
    listed(t.value + 1, |j| ahead_at(p, i + j))
}

// The first operand at instant i and the t instants before it, as far as there are so many.
pub fn run_back(p: Place, i: u8, t: Instant) -> Bounded<Literal, 32>
    ensures { items result ≡ down (lits_a p) i t.value }
{
    listed(t.value.min(i) + 1, |j| p.first(i - j))
}
