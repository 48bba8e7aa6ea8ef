// How many cells the lists take, and how many literals their longest clauses have, read from the operators' shapes.
ghost use Rattle.std.specs.Prelude.{◌≡◌, ℕ, suc, ◌*◌, ◌^◌, ◌<◌, ◌≤◌, min, List, reverse};
ghost use Rattle.cnf.specs.Clauses.{cells_of, longest_of};
ghost use Rattle.mtl.specs.Lists.{begin, added};
ghost use Rattle.mtl.specs.Rows.{past};
ghost use Rattle.mtl.specs.Sizes.{total, if_any, shape_clauses, shape_cells, shape_longest, guarded_cells, use_of, reach_of, delayed_cells_at, use_cells, extra_cells, closed_cells_at, closing_cells, use_longest, extra_longest, closing_longest};

use crate::operator::{Extra, Shape};
use crate::row::Row;

// How a row uses its operator's shape.
#[derive(Clone, Copy)]
enum Use {
    // at each instant, over the distance
    Each(u8),
    // at each instant with the one after it, and at the last instant with each loop start
    Around,
    // at each instant with the one at the distance before it; a clause of one literal where there is none
    Delayed(u8),
    // at each instant with the one before it; the shape Same at the first
    Onward,
    // at each instant, over the distance back or as far as there are instants
    Down(u8),
}

fn use_of(row: Row) -> Use
    ensures { result ≡ use_of row }
{
    match row {
        Row::Signal(_) | Row::Not(_) | Row::And(_, _) | Row::Or(_, _) => Use::Each(0),
        Row::After(_, t) | Row::Within(_, t) | Row::Throughout(_, t) => Use::Each(t),
        Row::Next(_) | Row::Until(_, _) | Row::Release(_, _) => Use::Around,
        Row::Previous(_) | Row::WeakPrevious(_) => Use::Delayed(1),
        Row::Ago(_, t) => Use::Delayed(t),
        Row::Since(_, _) | Row::Trigger(_, _) => Use::Onward,
        Row::Lately(_, t) | Row::Steadily(_, t) => Use::Down(t),
    }
}

// How far back a past row reaches, and 0 for any other.
fn reach(row: Row) -> u8
    ensures { result ≡ reach_of (past row) }
{
    match row {
        Row::Previous(_) | Row::WeakPrevious(_) | Row::Since(_, _) | Row::Trigger(_, _) => 1,
        Row::Ago(_, t) | Row::Lately(_, t) | Row::Steadily(_, t) => t,
        _ => 0,
    }
}

fn if_any(n: u8, count: u32) -> u32
    ensures { result ≡ if_any n count }
{
    if n == 0 { 0 } else { count }
}

// One use of a shape over the distance: its clauses, its cells, and the literals of its longest clause.
#[derive(Clone, Copy)]
struct ShapeSize {
    clauses: u32,
    cells: u32,
    longest: u32,
}

fn shape_size(shape: Shape, t: u8) -> ShapeSize
    ensures clauses { result.clauses ≡ shape_clauses shape t }
    ensures cells { result.cells ≡ shape_cells shape t }
    ensures longest { result.longest ≡ shape_longest shape t }
    ensures small { (result.clauses ≤ 257) × (result.cells ≤ 1026) × (result.longest ≤ 257) }
{
    let t = t as u32;
    let (clauses, cells, longest) = match shape {
        Shape::Free => (0, 0, 0),
        Shape::Same => (2, 6, 2),
        Shape::Both | Shape::Either => (3, 10, 3),
        Shape::Upto | Shape::Hold => (4, 15, 3),
        Shape::Any | Shape::All => (t + 2, 4 * t + 6, t + 2),
    };
    ShapeSize {
        clauses,
        cells,
        longest,
    }
}

// The cells of a use that binds only for one loop start.
fn guarded_cells(shape: Shape) -> u32
    ensures value { result ≡ guarded_cells shape }
    ensures small { result ≤ 1283 }
{
    shape_size(shape, 0).cells + shape_size(shape, 0).clauses
}

// f(0) + f(1) + ..., n of them.
fn total<F: Fn(u8) -> u32>(n: u16, f: F) -> u32
    requires few { n ≤ 256 }
    requires callable { F.IsAlwaysCallable f }
    requires fits { (i y : ℕ) → i < 256 → F.post f i y → y < 2 ^ 16 }
    ensures value { (g : ℕ → ℕ) → ((i y : ℕ) → i < 256 → F.post f i y → y ≡ g i) → result ≡ total 0 n g }
    ensures small { (m : ℕ) → ((i y : ℕ) → i < 256 → F.post f i y → y ≤ m) → result ≤ n * m }
{
    // a loop, since clauses on f bound the sum, which `sum` of a chain does not read
    let mut sum = 0;
    for i in 0..n {
        sum += f(i as u8);
    }
    sum
}

// The cells at instant i of a row that is delayed by the distance.
fn delayed_cells_at(shape: Shape, t: u8, i: u8) -> u32
    ensures value { result ≡ delayed_cells_at shape t i }
    ensures small { result ≤ 1026 }
{
    if t <= i {
        shape_size(shape, 0).cells
    } else {
        2
    }
}

fn delayed_cells(k: u8, shape: Shape, t: u8) -> u32
    ensures value { result ≡ total 0 (suc k) (delayed_cells_at shape t) }
    ensures small { result ≤ 262656 }
{
    total(k as u16 + 1, |i| delayed_cells_at(shape, t, i))
}

fn down_cells(k: u8, shape: Shape, t: u8) -> u32
    ensures value { result ≡ total 0 (suc k) (λ i. shape_cells shape (min i t)) }
    ensures small { result ≤ 262656 }
{
    total(k as u16 + 1, |i| shape_size(shape, i.min(t)).cells)
}

// The cells that close instant l - 1 - j, for the loop start l.
fn closed_cells_at(l: u8, j: u8) -> u32
    ensures value { result ≡ closed_cells_at l j }
    ensures small { result ≤ 8 }
{
    if j < l { guarded_cells(Shape::Same) } else { 3 }
}

fn closed_cells(l: u8, t: u8) -> u32
    ensures value { result ≡ total 0 t (closed_cells_at l) }
    ensures small { result ≤ 2040 }
{
    total(t as u16, |j| closed_cells_at(l, j))
}

// The cells of the closing clauses of a row that reaches t back.
fn closing_cells(k: u8, t: u8) -> u32
    ensures value { result ≡ closing_cells k t }
    ensures small { result ≤ 522240 }
{
    total(k as u16 + 1, |l| closed_cells(l, t))
}

fn use_cells(k: u8, shape: Shape, used: Use) -> u32
    ensures value { result ≡ use_cells k shape used }
    ensures small { result ≤ 600000 }
{
    match used {
        Use::Each(t) => (k as u32 + 1) * shape_size(shape, t).cells,
        Use::Around => k as u32 * shape_size(shape, 0).cells
            + (k as u32 + 1) * guarded_cells(shape),
        Use::Delayed(t) => delayed_cells(k, shape, t),
        Use::Onward => shape_size(Shape::Same, 0).cells + k as u32 * shape_size(shape, 0).cells,
        Use::Down(t) => down_cells(k, shape, t),
    }
}

// The cells of the clauses of the extra variables.
fn extra_cells(k: u8, t: u8, extra: Extra) -> u32
    ensures value { result ≡ extra_cells k t extra }
    ensures small { result ≤ 522240 }
{
    match extra {
        Extra::Nothing => 0,
        Extra::Seen => shape_size(Shape::Both, 0).cells
            + k as u32 * shape_size(Shape::Upto, 0).cells
            + 3,
        Extra::Ahead => t as u32 * ((k as u32 + 1) * guarded_cells(Shape::Same)),
    }
}

// The cells of begin's list.
pub fn begin_cells(k: u8) -> u32
    ensures value { result ≡ cells_of (begin k) }
    ensures small { result ≤ 3578 }
{
    let same = shape_size(Shape::Same, 0);
    let either = shape_size(Shape::Either, 0);
    4 * k as u32 + 2 + same.cells + k as u32 * either.cells
}

// The cells of the list of a row, after any rows.
pub fn row_cells(k: u8, row: Row) -> u32
    ensures value { (rows : List Row) → result ≡ cells_of (added k (reverse rows) row) }
    ensures small { result ≤ 2 ^ 21 }
{
    let operator = row.operator();
    use_cells(k, operator.shape, use_of(row))
        + extra_cells(k, row.distance(), operator.extra)
        + closing_cells(k, reach(row))
}

fn use_longest(k: u8, shape: Shape, used: Use) -> u32
    ensures { result ≡ use_longest k shape used }
{
    match used {
        Use::Each(t) => shape_size(shape, t).longest,
        Use::Around => shape_size(shape, 0).longest + 1,
        Use::Delayed(t) => if t <= k {
            shape_size(shape, 0).longest
        } else {
            1
        },
        Use::Onward => shape_size(Shape::Same, 0)
            .longest
            .max(if_any(k, shape_size(shape, 0).longest)),
        Use::Down(t) => shape_size(shape, k.min(t)).longest,
    }
}

fn extra_longest(t: u8, extra: Extra) -> u32
    ensures { result ≡ extra_longest t extra }
{
    match extra {
        Extra::Nothing => 0,
        Extra::Seen => 3,
        Extra::Ahead => if_any(t, 3),
    }
}

fn closing_longest(k: u8, t: u8) -> u32
    ensures { result ≡ closing_longest k t }
{
    if_any(t, 2.max(if_any(k, 3)))
}

// The literals of the longest clause of begin's list.
pub fn begin_longest(k: u8) -> u32
    ensures { result ≡ longest_of (begin k) }
{
    (k as u32 + 1)
        .max(shape_size(Shape::Same, 0).longest)
        .max(if_any(k, shape_size(Shape::Either, 0).longest))
}

// The literals of the longest clause of a row's list, after any rows.
pub fn row_longest(k: u8, row: Row) -> u32
    ensures { (rows : List Row) → result ≡ longest_of (added k (reverse rows) row) }
{
    let operator = row.operator();
    use_longest(k, operator.shape, use_of(row))
        .max(extra_longest(row.distance(), operator.extra))
        .max(closing_longest(k, reach(row)))
}
