// The code and the fields of a row.
ghost use Rattle.std.specs.Prelude.{◌≡◌};
ghost use Rattle.mtl.specs.Rows.{code, first, second, distance};

use crate::row::Row;
use calls::records::Define;

// A row as it is written, with a field that its operator has no use for as zero.
fn written(code: u8, a: u8, b: u8, t: u8) -> Define
    ensures { result ≡ record { code = code; a = a; b = b; t = t } }
{
    Define { code, a, b, t }
}

impl From<Row> for Define {
    ghost from_gives = { λ row fields. fields ≡ record { code = code row; a = first row; b = second row; t = distance row } };

    fn from(row: Row) -> Define {
        match row {
            Row::Signal(a) => written(1, a, 0, 0),
            Row::Not(a) => written(2, a, 0, 0),
            Row::And(a, b) => written(3, a, b, 0),
            Row::Or(a, b) => written(4, a, b, 0),
            Row::Next(a) => written(5, a, 0, 0),
            Row::Until(a, b) => written(6, a, b, 0),
            Row::Release(a, b) => written(7, a, b, 0),
            Row::After(a, t) => written(8, a, 0, t),
            Row::Within(a, t) => written(9, a, 0, t),
            Row::Throughout(a, t) => written(10, a, 0, t),
            Row::Previous(a) => written(11, a, 0, 0),
            Row::WeakPrevious(a) => written(12, a, 0, 0),
            Row::Since(a, b) => written(13, a, b, 0),
            Row::Trigger(a, b) => written(14, a, b, 0),
            Row::Ago(a, t) => written(15, a, 0, t),
            Row::Lately(a, t) => written(16, a, 0, t),
            Row::Steadily(a, t) => written(17, a, 0, t),
        }
    }
}
