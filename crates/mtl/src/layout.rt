// The variables of a job: first those of begin, then a block for each row.
ghost use Rattle.std.specs.Prelude.{◌≡◌, ◌+◌, ◌-◌, ◌^◌, ◌<◌, ◌≤◌, reverse};
ghost use Rattle.mtl.specs.Lists.{starts, inside, top, start, value};
ghost use Rattle.mtl.specs.Layout.{newest_of, size, sizes, most};

use crate::operator::Extra;
use crate::row::Row;
use crate::table::Table;
use cnf::clause::Literal;

// L(i): the loop starts at i.
pub fn starts_at(i: u8) -> Literal
    ensures { result ≡ starts i }
{
    Literal::asserted(i as u32 + 1)
}

// N(i): the loop starts at i or before.
pub fn inside_at(k: u8, i: u8) -> Literal
    ensures { result ≡ inside k i }
{
    Literal::asserted(k as u32 + 2 + i as u32)
}

// How many variables a row has.
pub fn block_size(k: u8, row: Row) -> u32
    ensures value { result ≡ size k row }
    ensures small { result ≤ 512 }
{
    let extra = match row.operator().extra {
        Extra::Nothing => 0,
        Extra::Seen => k as u32 + 1,
        Extra::Ahead => row.distance() as u32,
    };
    k as u32 + 1 + extra
}

// The first variable after the blocks of the rows.
#[tactic(auto, using(crate::proofs::Places::top_at))]
fn after(k: u8, rows: &[Row]) -> u32
    requires { sizes k rows.now < 2 ^ 16 }
    ensures { result ≡ top k (reverse rows.now) }
{
    2 * k as u32 + 3 + rows.iter().map(|row| block_size(k, *row)).sum::<u32>()
}

impl Table {
    // The first variable after the blocks of the rows, where the block of the next row starts.
    #[tactic(auto, using(crate::proofs::Places::small_table, crate::proofs::Places::small_top))]
    pub fn top(&self, k: u8) -> u32
        ensures value { result ≡ top k (newest_of self.now) }
        ensures bound { result ≤ most k + 1 }
    {
        after(k, self.as_slice())
    }

    // The highest variable.
    pub fn highest(&self, k: u8) -> u32
        ensures value { result ≡ top k (newest_of self.now) - 1 }
        ensures bound { result ≤ most k }
    {
        self.top(k) - 1
    }

    // The first variable of row n's block, 0 where there is no such row: no variable has that number.
    #[tactic(auto, using(crate::proofs::Places::none_at, crate::proofs::Places::start_top, crate::proofs::Places::small_part, crate::proofs::Places::small_start))]
    pub fn start(&self, k: u8, n: u8) -> u32
        ensures value { result ≡ start k (newest_of self.now) n }
        ensures bound { result ≤ most k }
    {
        let rows = self.as_slice();
        if n as usize >= rows.len() {
            return 0;
        }
        after(k, &rows[..n as usize])
    }

    // V(i) of row n: the row is true at i.
    pub fn value(&self, k: u8, n: u8, i: u8) -> Literal
        ensures { result ≡ value k (newest_of self.now) n i }
    {
        Literal::asserted(self.start(k, n) + i as u32)
    }
}
