// The answer of a text.
ghost use Rattle.std.specs.Prelude.{◌≡◌, ℕ, ◌≤◌, length, Ok};
ghost use Rattle.cnf.specs.Questions.{first_no};
ghost use Rattle.text.specs.Split.{lines, kept};
ghost use Rattle.answers.specs.Variables.{variables};
ghost use Rattle.answers.specs.Reading.{literals};
ghost use Rattle.answers.specs.Answer.{answer, area_after, model, model_asks, model_of};
ghost use Rattle.answers.specs.Meaning.{Means, Satisfied};

use crate::refusals::Refusal;
use crate::valuation::{are_given, give_all, write};
use crate::verdicts::Verdict;
use job::state::Setup;
use text::splitting::next_line;

const LONGEST_TEXT: usize = 60_000;

// What the lines after SATISFIABLE say of the variables that have a byte in the area, by questions 46 to 48.
fn read_values(text: &[u8], area: &mut [u8]) -> Result<Verdict, Refusal>
    requires { length area.old ≤ 2112 }
    ensures said { result ≡ first_no (model_asks (length area.old) Verdict.Satisfiable (literals (kept (lines text.now)))) Verdict.Satisfiable }
    ensures written { area.new ≡ area_after (length area.old) result (literals (kept (lines text.now))) area.old }
{
    let mut most = [None; Setup::MOST_VARIABLES];
    let values = &mut most[..area.len()];
    give_all(values, text)?;
    if !are_given(values) {
        return Err(Refusal::Missing);
    }
    write(values, area);
    Ok(Verdict::Satisfiable)
}

// What the lines after UNSATISFIABLE say, by the same questions: no line is the answer, and a line a refusal.
fn read_no_values(text: &[u8]) -> Result<Verdict, Refusal>
    ensures { (v : ℕ) → result ≡ first_no (model_asks v Verdict.Unsatisfiable (model Verdict.Unsatisfiable (kept (lines text.now)))) Verdict.Unsatisfiable }
{
    match next_line(text) {
        None => Ok(Verdict::Unsatisfiable),
        Some(_) => Err(Refusal::Form),
    }
}

// The answer for the variables from 1 to the highest.
fn read_for(highest: usize, text: &[u8], area: &mut [u8]) -> Result<Verdict, Refusal>
    requires { highest ≤ 2112 }
    ensures said { result ≡ answer highest text.now (length area.old) }
    ensures written { area.new ≡ area_after highest result (model_of text.now) area.old }
{
    if text.len() > LONGEST_TEXT {
        return Err(Refusal::TextLength);
    }
    if area.len() < highest {
        return Err(Refusal::AreaLength);
    }
    let (first, rest) = next_line(text).ok_or(Refusal::Status)?;
    match Verdict::of_line(first).ok_or(Refusal::Status)? {
        Verdict::Satisfiable => read_values(rest, &mut area[..highest]),
        Verdict::Unsatisfiable => read_no_values(rest),
    }
}

// Reads the answer of a solver to the clauses of a job. After SATISFIABLE the values of the job's variables go to the area.
pub fn read_answer(setup: &Setup, text: &[u8], area: &mut [u8]) -> Result<Verdict, Refusal>
    ensures said { result ≡ answer (variables setup.now) text.now (length area.old) }
    ensures written { area.new ≡ area_after (variables setup.now) result (model_of text.now) area.old }
    ensures meaning { Means (variables setup.now) text.now (length area.old) result }
    ensures satisfied { result ≡ Ok Verdict.Satisfiable → Satisfied (variables setup.now) text.now area.old area.new }
{
    read_for(setup.highest() as usize, text, area)
}
