// Hexadecimal digits.
ghost use Rattle.std.specs.Prelude.{◌≡◌, ◌<◌};
ghost use Rattle.frames.specs.Hex.{digit, worth, byte};

// The digits and what they stand for: one table, which `reads` and `writes` turn into the cases of a match.
macro_rules! by_table {
    ($cases:ident, $x:expr) => {
        $cases!($x; b'0' 0, b'1' 1, b'2' 2, b'3' 3, b'4' 4, b'5' 5, b'6' 6, b'7' 7, b'8' 8, b'9' 9, b'A' 10, b'B' 11, b'C' 12, b'D' 13, b'E' 14, b'F' 15)
    };
}

macro_rules! reads {
    ($x:expr; $($c:literal $n:literal),+) => {
        match $x {
            $($c => Some($n),)+
            _ => None,
        }
    };
}

macro_rules! writes {
    ($x:expr; $($c:literal $n:literal),+) => {
        match $x {
            $($n => $c,)+
            _ => unreachable(),
        }
    };
}

// What a digit stands for, or nothing where the character is no digit.
pub fn value_of(c: u8) -> Option<u8>
    ensures { result ≡ worth c }
{
    by_table!(reads, c)
}

// The digit of a number below sixteen.
pub fn digit_of(n: u8) -> u8
    requires { n < 16 }
    ensures { result ≡ digit n }
{
    by_table!(writes, n)
}

// The byte of two digits.
pub fn byte_of(high: u8, low: u8) -> Option<u8>
    ensures { result ≡ byte high low }
{
    Some(16 * value_of(high)? + value_of(low)?)
}
