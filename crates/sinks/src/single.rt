// One clause, through a switch, as a line at the front of the caller's area.
ghost use Rattle.std.specs.Prelude.{◌≡◌, Err, MatchResult};
ghost use Rattle.sinks.specs.Single.{one_answer, WroteOne};

use crate::writer::Writer;
use cnf::clause::Literal;
use cnf::refusal::Refusal;
use cnf::switch::take_switched;

// Writes the line of `clause` behind the negated `variable`, and gives the number of bytes written.
pub fn write_switched(area: &mut [u8], variable: u32, clause: &[Literal]) -> Result<usize, Refusal>
    ensures { MatchResult result (λ n. WroteOne variable clause.now area.old area.new n) (λ e. (one_answer variable clause.now area.old ≡ Err e) × (area.new ≡ area.old)) }
{
    let mut writer = Writer::new(area);
    take_switched(&mut writer, variable, clause)?;
    Ok(writer.text().len())
}
