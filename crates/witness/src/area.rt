// The bytes of an assignment, block by block.
ghost use Rattle.std.specs.Prelude.{◌≡◌, ℕ, ◌+◌, ◌-◌, ◌*◌, ◌<◌, ◌≤◌, Bool, true, reverse, length, slice_index};
ghost use Rattle.std.specs.Int.{from_bool};
ghost use Rattle.mtl.specs.Rows.{extra};
ghost use Rattle.mtl.specs.Layout.{size};
ghost use Rattle.mtl.specs.Lists.{top};
ghost use Rattle.mtl.specs.Tables.{lawful};
ghost use Rattle.evaluate.specs.Lines.{Ready};
ghost use Rattle.witness.specs.Areas.{SameFrom, Bits};
ghost use Rattle.witness.specs.Blocks.{sought, ExtrasTold, Block, Laid};

use evaluate::lasso::Lasso;
use evaluate::lines::Lines;
use mtl::layout::block_size;
use mtl::operator::{Extra, Shape};
use mtl::row::Row;

// Writes the truth at 0, 1, .. into the bytes.
fn write_bits<F: Fn(usize) -> bool>(bytes: &mut [u8], truth: F)
    requires { (i : ℕ) → i < length bytes.old → F.pre truth i }
    ensures told { (i : ℕ) → i < length bytes.old → (v : Bool) × F.post truth i v × (slice_index bytes.new i ≡ from_bool v) }
    ensures bits { Bits 0 (length bytes.old) bytes.new }
{
    for (i, byte) in bytes.iter_mut().enumerate() {
        *byte = u8::from(truth(i));
    }
}

// What the extra variables of until and release look for.
fn sought(shape: Shape) -> bool
    ensures { result ≡ sought shape }
{
    !matches!(shape, Shape::Hold)
}

// Writes the extra variables of a row.
fn write_extra(bytes: &mut [u8], lines: &Lines, row: Row)
    requires { Ready lines.now.count row × (length bytes.old ≡ extra lines.now.lasso.bound row) }
    ensures told { ExtrasTold lines.now.lasso.bound lines.now.lasso.start lines.now.bytes.now bytes.new 0 row }
    ensures bits { Bits 0 (length bytes.old) bytes.new }
{
    let Lasso { bound, start } = lines.lasso;
    let operator = row.operator();
    match operator.extra {
        Extra::Nothing => {}
        Extra::Seen => {
            let sense = sought(operator.shape);
            write_bits(bytes, |i| {
                start <= i && lines.met_ahead(row.second(), start, i - start, sense)
            });
        }
        Extra::Ahead => write_bits(bytes, |i| lines.round(row.first(), bound + 1 + i)),
    }
}

// Writes the block of row n.
fn write_block(block: &mut [u8], lines: &Lines, n: u8, row: Row)
    requires { (n < lines.now.count) × Ready n row × (length block.old ≡ size lines.now.lasso.bound row) }
    ensures told { Block lines.now.lasso.bound lines.now.lasso.start lines.now.bytes.now block.new 0 n row }
    ensures bits { Bits 0 (length block.old) block.new }
{
    let instants = lines.lasso.instants();
    let (values, extras) = block.split_at_mut(instants);
    write_bits(values, |i| lines.bit(n, i));
    write_extra(extras, lines, row);
}

// Writes the variables of begin, and the block of each row from the lines.
pub(crate) fn write_area(area: &mut [u8], lines: &Lines, rows: &[Row])
    requires sizes { (lines.now.count ≡ length rows.now) × (lawful rows.now ≡ true) × (top lines.now.lasso.bound (reverse rows.now) ≤ length area.old + 1) }
    ensures laid { Laid lines.now.lasso.bound lines.now.lasso.start lines.now.bytes.now area.new (reverse rows.now) }
    ensures bits { Bits 0 (top lines.now.lasso.bound (reverse rows.now) - 1) area.new }
    ensures rest { SameFrom (top lines.now.lasso.bound (reverse rows.now) - 1) area.new area.old }
{
    let Lasso { bound, start } = lines.lasso;
    let instants = lines.lasso.instants();
    write_bits(&mut area[..instants], |i| start == i);
    write_bits(&mut area[instants..2 * instants], |i| start <= i);
    let mut at = 2 * instants;
    for (n, row) in rows.iter().enumerate() {
        let end = at + block_size(bound as u8, *row) as usize;
        write_block(&mut area[at..end], lines, n as u8, *row);
        at = end;
    }
}
