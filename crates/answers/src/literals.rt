// The literals of the v lines, one after the other.
ghost use Rattle.std.specs.Prelude.{◌≡◌, List, ℕ, ◌<◌, ◌++◌, None, Some, Ok, MatchResult, codes};
ghost use Rattle.text.specs.Split.{lines, words, kept};
ghost use Rattle.text.specs.Left.{words_left};
ghost use Rattle.answers.specs.Words.{number};
ghost use Rattle.answers.specs.Reading.{after_v, close, literals};

use crate::numbers::read_number;
use crate::refusals::Refusal;
use cnf::clause::Literal;
use text::lines::KeptLines;
use text::words::Words;

// The numbers of a v line.
fn numbers_of(line: &[u8]) -> Result<Words<'_>, Refusal>
    ensures { MatchResult result (λ it. (t : List ℕ) × (line.now ≡ codes "v " ++ t) × (words_left it ≡ words t)) (λ e. (e ≡ Refusal.Form) × (after_v (words line.now) ≡ None)) }
{
    match line {
        [b'v', b' ', numbers @ ..] => Ok(Words::of(numbers)),
        _ => Err(Refusal::Form),
    }
}

// The lines that are left, and the words that are left of a line.
#[derive(Drop)]
pub(crate) struct Literals<'a> {
    lines: KeptLines<'a>,
    words: Words<'a>,
}

impl<'a> Literals<'a> {
    ghost use Rattle.answers.specs.Left.{numbers_left, count_left, TakesWord, Takes};

    pub(crate) fn of(text: &'a [u8]) -> Result<Literals<'a>, Refusal>
        ensures { MatchResult result (λ it. literals (kept (lines text.now)) ≡ close (numbers_left it)) (λ e. (e ≡ Refusal.Form) × (literals (kept (lines text.now)) ≡ None)) }
    {
        let mut lines = KeptLines::of(text);
        let line = lines.next().ok_or(Refusal::Form)?;
        let words = numbers_of(line)?;
        Ok(Literals { lines, words })
    }

    // The next word; none after the last line.
    fn next_word(&mut self) -> Result<Option<&'a [u8]>, Refusal>
        ensures { TakesWord self.old result self.new }
    {
        if let Some(word) = self.words.next() {
            return Ok(Some(word));
        }
        let Some(line) = self.lines.next() else {
            return Ok(None);
        };
        self.words = numbers_of(line)?;
        Ok(self.words.next())
    }

    // The next number.
    fn next_number(&mut self) -> Result<Option<Literal>, Refusal>
        ensures takes { Takes (numbers_left self.old) result (numbers_left self.new) }
        ensures fewer { (n : Literal) → result ≡ Ok (Some n) → count_left self.new < count_left self.old }
    {
        let Some(word) = self.next_word()? else {
            return Ok(None);
        };
        let number = read_number(word).ok_or(Refusal::Form)?;
        Ok(Some(number))
    }

    // The next literal; none at the 0, which stands last.
    pub(crate) fn next_literal(&mut self) -> Result<Option<Literal>, Refusal>
        ensures takes { Takes (close (numbers_left self.old)) result (close (numbers_left self.new)) }
        ensures fewer { (n : Literal) → result ≡ Ok (Some n) → count_left self.new < count_left self.old }
        ensures some { (n : Literal) → result ≡ Ok (Some n) → 0 < n.variable }
    {
        let number = self.next_number()?.ok_or(Refusal::Form)?;
        if number.variable > 0 {
            return Ok(Some(number));
        }
        match self.next_number()? {
            None => Ok(None),
            Some(_) => Err(Refusal::Form),
        }
    }
}
