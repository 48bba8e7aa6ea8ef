// A list of calls over a writer to the caller's area, and over a judge by it.
ghost use Rattle.job.specs.Bottoms.{WroteRules, WrotePiled, JudgedRules};

use crate::call::Exchange;
use crate::drive::{drive, drive_lent, drive_piled};
use cnf::sink::Sink;
use sinks::judge::Judge;
use sinks::writer::Writer;

// What was written: the bytes of the lines, their number, and the job's highest variable.
#[derive(Clone, Copy, Debug, PartialEq, Eq)]
pub struct Written {
    pub bytes: usize,
    pub clauses: usize,
    pub highest: u32,
}

// Writes the clauses of the accepted calls as lines to the front of the area.
pub fn write_rules(area: &mut [u8], exchanges: &mut [Exchange]) -> Written
    ensures { WroteRules area.old exchanges.old exchanges.new area.new result }
{
    let mut writer = Writer::new(area);
    let setup = drive_lent(&mut writer, exchanges);
    Written {
        bytes: writer.text().len(),
        clauses: writer.count(),
        highest: setup.highest(),
    }
}

// The same through a switch over a switch; gives the bytes of the lines.
pub fn write_piled(area: &mut [u8], first: u32, second: u32, exchanges: &mut [Exchange]) -> usize
    ensures { WrotePiled first second area.old exchanges.old exchanges.new area.new result }
{
    let mut writer = Writer::new(area);
    let _ = drive_piled(&mut writer, first, second, exchanges);
    writer.text().len()
}

// Judges the clauses of the accepted calls by the area: the number of the first false one, or 0, as a judge tells it.
pub fn judge_rules(area: &[u8], exchanges: &mut [Exchange]) -> usize
    ensures { JudgedRules area.now exchanges.old exchanges.new result }
{
    let job = drive(Judge::new(area), exchanges);
    job.sink().first_false()
}
