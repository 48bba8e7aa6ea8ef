// What a part claims at an instant.
ghost use Rattle.std.specs.Prelude.{◌≡◌, ◌+◌, ◌-◌, ◌%◌, ◌<◌, ◌≤◌};
ghost use Rattle.mtl.specs.Lists.{block, period, subject_of};
ghost use Rattle.encode.specs.Parts.{claimed, linked, subject, delayed_at, seen_at, past_of, past_at, guard_at, claimed_at};

use super::instant::Instant;
use super::part::{Back, Claim, Guard, Link, Part};
use super::place::Place;
use super::runs::{ahead_at, run_ahead, run_back};
use cnf::clause::Literal;
use mtl::layout::{inside_at, starts_at};

fn link(p: Place, by: Link, i: u8, n: u8) -> Claim
    ensures { claimed result ≡ linked p by i n }
{
    let x = p.own(i);
    match by {
        Link::Next => Claim::Same(x, p.first(n)),
        Link::Until => Claim::Upto(x, p.second(i), p.first(i), p.own(n)),
        Link::Release => Claim::Hold(x, p.second(i), p.first(i), p.own(n)),
    }
}

fn delayed(p: Place, t: Instant, v: bool, i: u8) -> Claim
    requires { i ≤ 31 }
    ensures { claimed result ≡ delayed_at p t.value v i }
{
    let x = p.own(i);
    if t.value <= i {
        Claim::Same(x, p.first(i - t.value))
    } else {
        Claim::Unit(x.given(v))
    }
}

// The literal whose past is meant, at an instant.
fn subject_at(p: Place, own: bool, i: u8) -> Literal
    ensures { result ≡ block (subject_of p.a p.x (subject own)) i }
{
    if own { p.own(i) } else { p.first(i) }
}

// j modulo the length of the loop that starts at l.
fn turned(k: u8, l: u8, j: u8) -> u8
    requires { k ≤ 31 }
    ensures turn { result ≡ j % period k l }
    ensures small { result ≤ k }
{
    j % (k.saturating_sub(l) + 1)
}

// The literal j + 1 before the loop start l is what the loop has there, or the value before instant 0 is.
fn past(p: Place, s: Back, l: Instant, j: u8) -> Claim
    requires { j ≤ 31 }
    ensures { claimed result ≡ past_at p s l.value j }
{
    let end = subject_at(p, s.own, p.k - turned(p.k, l.value, j));
    if j < l.value {
        Claim::Same(subject_at(p, s.own, l.value - (j + 1)), end)
    } else {
        Claim::Unit(end.given(s.before))
    }
}

// The next instant has seen the second operand if this one has, or if it lies in the loop and has it.
fn seen(p: Place, v: bool, i: u8) -> Claim
    requires { i ≤ 31 }
    ensures { claimed result ≡ seen_at p v i }
{
    let n = i + 1;
    Claim::Upto(
        p.extra(n),
        p.extra(i),
        inside_at(p.k, n),
        p.second(n).given(v),
    )
}

pub fn guard_of(p: Place, guard: Guard, i: u8) -> Option<Literal>
    ensures { result ≡ guard_at p guard i }
{
    match guard {
        Guard::Always => None,
        Guard::Inside => Some(inside_at(p.k, i)),
        Guard::Start => Some(starts_at(i)),
        Guard::StartAt(l) => Some(starts_at(l.value)),
    }
}

pub fn claim_of(p: Place, part: Part, i: u8) -> Claim
    requires { i ≤ 31 }
    ensures { claimed result ≡ claimed_at p part i }
{
    let n = i + 1;
    let x = p.own(i);
    let a = p.first(i);
    let b = p.second(i);
    match part {
        Part::Apart => Claim::Unit(starts_at(n).opposite()),
        Part::Rise => Claim::Either(inside_at(p.k, n), inside_at(p.k, i), starts_at(n)),
        Part::Not => Claim::Same(x, a.opposite()),
        Part::And => Claim::Both(x, a, b),
        Part::Or => Claim::Either(x, a, b),
        Part::Forward(by) => link(p, by, i, n),
        Part::Around(by) => link(p, by, p.k, i),
        Part::Backward(by) => link(p, by, n, i),
        Part::Seen(v) => seen(p, v, i),
        Part::After(t) => Claim::Same(x, ahead_at(p, i + t.value)),
        Part::Within(t) => Claim::Any(x, run_ahead(p, i, t)),
        Part::Throughout(t) => Claim::All(x, run_ahead(p, i, t)),
        Part::Lately(t) => Claim::Any(x, run_back(p, i, t)),
        Part::Steadily(t) => Claim::All(x, run_back(p, i, t)),
        Part::Beyond(j) => Claim::Same(p.extra(j.value), p.first(i + turned(p.k, i, j.value))),
        Part::Delayed(t, v) => delayed(p, t, v, i),
        Part::Closed(s, l) => past(p, s, l, i),
    }
}
