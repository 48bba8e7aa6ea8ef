// The number that a word writes.
ghost use Rattle.std.specs.Prelude.{◌≡◌};
ghost use Rattle.answers.specs.Words.{tens, numeral, number};
ghost use Rattle.answers.specs.Cap.{capped, short};

use cnf::clause::Literal;

// Numbers from here on are all read as this one, since no job has as high a variable.
const CAP: u32 = 10_000;

fn read_digits(digits: &[u8]) -> Option<u32>
    ensures { result ≡ capped (tens digits.now 0) }
{
    let mut n: u32 = 0;
    for c in digits {
        n = (10 * n + char::from(*c).to_digit(10)?).min(CAP);
    }
    Some(n)
}

fn read_numeral(digits: &[u8]) -> Option<u32>
    ensures { result ≡ capped (numeral digits.now) }
{
    match digits {
        [] => None,
        [b'0'] => Some(0),
        [b'0', ..] => None,
        _ => read_digits(digits),
    }
}

// The literal that a word writes; 0 is read as a literal with the variable 0.
pub(crate) fn read_number(word: &[u8]) -> Option<Literal>
    ensures { result ≡ short (number word.now) }
{
    match word {
        [b'-', digits @ ..] => {
            match read_numeral(digits)? {
                0 => None,
                variable => Some(Literal::negated(variable)),
            }
        }
        _ => read_numeral(word).map(Literal::asserted),
    }
}
