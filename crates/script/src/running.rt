// A script on a job over any sink.
ghost use Rattle.job.specs.States.{state_of};
ghost use Rattle.job.specs.Steps.{known};
ghost use Rattle.script.specs.Scripts.{LinePerformed, ScriptRan, DroveScript};

use crate::refusal::{Refusal, Stop};
use cnf::sink::Sink;
use frames::scripts::call_of;
use job::job::Job;
use job::state::Setup;
use text::lines::Lines;

// Performs the call of one line.
pub fn perform_line<S: Sink>(job: &mut Job<S>, line: &[u8]) -> Result<(), Refusal>
    ensures { LinePerformed S.Sink.model job.old line.now result job.new }
{
    let call = call_of(line)?;
    job.perform(call)?;
    Ok(())
}

// Performs the lines in order, up to the first that is refused.
pub fn perform_script<S: Sink>(job: &mut Job<S>, script: &[u8]) -> Result<(), Stop>
    ensures { ScriptRan S.Sink.model job.old.sink (known job.old) script.now result job.new.sink (known job.new) }
{
    for (i, line) in Lines::of(script).enumerate() {
        perform_line(job, line).map_err(|refusal| Stop {
            refusal,
            line: i + 1,
        })?;
    }
    Ok(())
}

// What a job knew in the end, and how its script ended.
#[derive(Drop)]
pub struct Outcome {
    pub setup: Setup,
    pub result: Result<(), Stop>,
}

// Makes a job over the sink, performs the script on it, and gives back the sink beside the outcome.
pub fn drive_script<S: Sink>(sink: S, script: &[u8]) -> (S, Outcome)
    ensures { DroveScript S.Sink.model sink script.now result.1.result result.0 (state_of result.1.setup) }
{
    let mut job = Job::new(sink);
    let result = perform_script(&mut job, script);
    let setup = *job.setup();
    (job.into_sink(), Outcome { setup, result })
}

// The same over a sink that the caller keeps.
pub fn drive_script_lent<S: Sink>(sink: &mut S, script: &[u8]) -> Outcome
    ensures { DroveScript S.Sink.model sink.old script.now result.result sink.new (state_of result.setup) }
{
    let (_, outcome) = drive_script(sink, script);
    outcome
}
