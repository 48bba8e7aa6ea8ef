// What literals give the variables. A slice holds for each variable, from 1 on, its value, if it was given.
ghost use Rattle.std.specs.Prelude.{◌≡◌, ℕ, ◌+◌, ◌-◌, ◌<◌, ◌≤◌, true, ◌↔◌, map, length, is_some, None, Some, IsTrue, OnOk, slice_index_or, slice_set};
ghost use Rattle.cnf.specs.Questions.{first_no};
ghost use Rattle.text.specs.Split.{lines, kept};
ghost use Rattle.answers.specs.Reading.{literals};
ghost use Rattle.answers.specs.Values.{value, bit};
ghost use Rattle.answers.specs.Answer.{or_empty, value_asks};
ghost use Rattle.answers.specs.Held.{free, sound_if};

use crate::literals::Literals;
use crate::refusals::Refusal;
use cnf::clause::Literal;

// Gives a literal's variable its value. It is refused where the variable is too high or has a value.
fn give(values: &mut [Option<bool>], literal: Literal) -> Result<(), Refusal>
    requires { 0 < literal.variable }
    ensures answer { result ≡ sound_if (free values.old literal) }
    ensures given { values.new ≡ slice_set values.old (literal.variable - 1) (Some literal.positive) }
{
    let place = literal.variable as usize - 1;
    if place >= values.len() || values[place].replace(literal.positive).is_some() {
        return Err(Refusal::Variable);
    }
    Ok(())
}

// Has each variable a value?
pub(crate) fn are_given(values: &[Option<bool>]) -> bool
    ensures { IsTrue result ↔ ((k : ℕ) → k < length values.now → is_some (slice_index_or values.now k None) ≡ true) }
{
    values.iter().all(Option::is_some)
}

// Writes the value of each variable.
pub(crate) fn write(values: &[Option<bool>], area: &mut [u8])
    requires { length values.now ≡ length area.old }
    ensures { area.new ≡ map bit values.now }
{
    for (i, value) in values.iter().enumerate() {
        area[i] = u8::from(*value == Some(true));
    }
}

// Gives each variable its value in the literals of the v lines, by questions 46 and 47.
pub(crate) fn give_all(values: &mut [Option<bool>], text: &[u8]) -> Result<(), Refusal>
    requires few { length values.old ≤ 2112 }
    requires none { (k : ℕ) → slice_index_or values.old k None ≡ None }
    ensures answer { result ≡ first_no (value_asks (length values.old) (literals (kept (lines text.now)))) tt }
    ensures size { length values.new ≡ length values.old }
    ensures given { OnOk result ((k : ℕ) → k < length values.old → slice_index_or values.new k None ≡ value (or_empty (literals (kept (lines text.now)))) (k + 1)) }
{
    // A variable that is refused waits: the question of the form comes first, and asks of every line.
    let mut sound = Ok(());
    let mut literals = Literals::of(text)?;
    while let Some(literal) = literals.next_literal()? {
        sound = sound.and(give(values, literal));
    }
    sound
}
