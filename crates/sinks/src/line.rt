// Writes bytes, numbers and the line of a clause, each at an index of an area.
ghost use Rattle.std.specs.Prelude.{◌≡◌, ◌+◌, ◌<◌, ◌≤◌, [], ◌∷◌, length, decimal};
ghost use Rattle.sinks.specs.Lines.{over, line, pair_line, WroteNumeral};

use crate::pen::Pen;
use cnf::clause::Literal;
use itoa::write_digits;

// Writes a byte at `at`, and gives the index past it.
pub fn put(area: &mut [u8], at: usize, byte: u8) -> usize
    requires { at < length area.old }
    ensures area { area.new ≡ over area.old at (byte ∷ []) }
    ensures end { result ≡ at + 1 }
{
    area[at] = byte;
    at + 1
}

// Writes some bytes.
pub fn put_bytes(area: &mut [u8], at: usize, bytes: &[u8]) -> usize
    requires { at + length bytes.now ≤ length area.old }
    ensures area { area.new ≡ over area.old at bytes.now }
    ensures end { result ≡ at + length bytes.now }
{
    let end = at + bytes.len();
    area[at..end].copy_from_slice(bytes);
    end
}

// How many decimal digits a number has.
fn digit_count(number: u64) -> usize
    ensures { result ≡ length (decimal number) }
{
    if number < 10 {
        1
    } else {
        digit_count(number / 10) + 1
    }
}

// Writes the decimal digits of a number, in their place: a buffer of their own would be filled and copied for each number.
pub fn put_number(area: &mut [u8], at: usize, number: u64) -> usize
    requires { at + length (decimal number) ≤ length area.old }
    ensures { WroteNumeral number at area.old area.new result }
{
    let end = at + digit_count(number);
    write_digits(number, area, end);
    end
}

// Writes a word, two numbers with a blank between them, and a line feed.
pub fn put_pair(area: &mut [u8], word: &[u8], first: u64, second: u64) -> usize
    requires { length (pair_line word.now first second) ≤ length area.old }
    ensures area { area.new ≡ over area.old 0 (pair_line word.now first second) }
    ensures end { result ≡ length (pair_line word.now first second) }
{
    let number = put_bytes(area, 0, word);
    let blank = put_number(area, number, first);
    let next = put(area, blank, b' ');
    let feed = put_number(area, next, second);
    put(area, feed, b'\n')
}

// Writes the line of a clause at `at`, and gives the index past it.
pub(crate) fn put_line(area: &mut [u8], at: usize, clause: &[Literal]) -> usize
    requires { at + length (line clause.now) ≤ length area.old }
    ensures area { area.new ≡ over area.old at (line clause.now) }
    ensures end { result ≡ at + length (line clause.now) }
{
    let mut pen = Pen { area, at };
    pen.line(clause);
    pen.at
}
