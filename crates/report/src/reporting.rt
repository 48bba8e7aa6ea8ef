// What comes of a script and a solver's answer to its clauses.
ghost use Rattle.std.specs.Prelude.{◌≡◌, ◌+◌, true, length};
ghost use Rattle.sinks.specs.Models.{assigned};
ghost use Rattle.mtl.specs.Tables.{Asked};
ghost use Rattle.job.specs.Calls.{highest};
ghost use Rattle.job.specs.Runs.{Shows};
ghost use Rattle.job.specs.States.{state_of};
ghost use Rattle.answers.specs.Answer.{answer};
ghost use Rattle.witness.specs.Shown.{run_answer};
ghost use Rattle.report.specs.Reports.{ByRun, ByVerdict, Judged, Reported, ToldOf};

use crate::outcome::{Report, ShownRun, Told};
use crate::refusal::Refusal;
use crate::telling::{REPORT_BYTES, tell};
use answers::reading::read_answer;
use answers::verdicts::Verdict;
use bounded::Bounded;
use job::state::Setup;
use script::file::WORK_BYTES;
use script::running::{drive_script, drive_script_lent};
use sinks::judge::Judge;
use sinks::writer::Writer;
use witness::run::run;

// The run of an assignment that is in.
fn report_run(setup: &Setup, area: &[u8]) -> Result<Report, Refusal>
    requires shows { (state_of setup.now).begun ≡ true → Shows (state_of setup.now) (assigned area.now) }
    requires asked { Asked (state_of setup.now).bound (length (state_of setup.now).rows) (state_of setup.now).kept }
    ensures { ByRun (state_of setup.now) area.now (run_answer (state_of setup.now) area.now ((state_of setup.now).bound + 1)) result }
{
    let mut places = [0; 32];
    let letters = &mut places[..setup.bound() as usize + 1];
    let start = run(setup, area, letters)?;
    let mut shown = Bounded::new(0);
    shown.extend(letters);
    Ok(Report::Shown(ShownRun {
        start,
        letters: shown,
    }))
}

// The script over a judge by the area.
fn report_judged(script: &[u8], area: &[u8]) -> Result<Report, Refusal>
    ensures { Judged script.now area.now result }
{
    let (judge, outcome) = drive_script(Judge::new(area), script);
    outcome.result?;
    match judge.first_false() {
        0 => report_run(&outcome.setup, area),
        clause => Ok(Report::Out(clause)),
    }
}

// What the answer to the clauses of a script comes to, where its job knows the setup.
fn report_answer(setup: &Setup, script: &[u8], reply: &[u8]) -> Result<Report, Refusal>
    ensures { ByVerdict (state_of setup.now) script.now reply.now (answer (highest (state_of setup.now)) reply.now 2112) result }
{
    let mut area = [0; Setup::MOST_VARIABLES];
    match read_answer(setup, reply, &mut area)? {
        Verdict::Unsatisfiable => Ok(Report::Unsatisfiable),
        Verdict::Satisfiable => report_judged(script, &area),
    }
}

// Runs the script over a writer to the work area, reads the answer, and judges it.
pub fn report(script: &[u8], reply: &[u8], work: &mut [u8; WORK_BYTES]) -> Result<Report, Refusal>
    ensures { Reported work.old script.now reply.now result }
{
    let mut writer = Writer::new(work);
    let outcome = drive_script_lent(&mut writer, script);
    outcome.result?;
    report_answer(&outcome.setup, script, reply)
}

// The same, told at the front of the output.
pub fn make_report(
    script: &[u8],
    reply: &[u8],
    work: &mut [u8; WORK_BYTES],
    output: &mut [u8; REPORT_BYTES],
) -> Told
    ensures { ToldOf work.old script.now reply.now output.old output.new result }
{
    let outcome = report(script, reply, work);
    let bytes = tell(&outcome, output);
    Told { outcome, bytes }
}
