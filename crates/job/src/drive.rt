// A whole list of calls on a job over any sink.
ghost use Rattle.job.specs.Drives.{Performed, Drove};
ghost use Rattle.cnf.specs.Layers.{switch_model};
ghost use Rattle.job.specs.States.{state_of};
ghost use Rattle.job.specs.Steps.{known};

use crate::call::Exchange;
use crate::job::Job;
use crate::state::Setup;
use cnf::sink::Sink;
use cnf::switch::Switch;

// Performs the calls in order, goes on after refusals, and puts each answer beside its call.
pub fn perform_all<S: Sink>(job: &mut Job<S>, exchanges: &mut [Exchange])
    ensures { Performed S.Sink.model job.old exchanges.old exchanges.new job.new }
{
    for exchange in exchanges.iter_mut() {
        let answer = job.perform(exchange.call);
        exchange.answer = Some(answer);
    }
}

// Makes a job over the sink, performs the calls, and gives the job back.
pub fn drive<S: Sink>(sink: S, exchanges: &mut [Exchange]) -> Job<S>
    ensures { Drove S.Sink.model sink exchanges.old exchanges.new result.sink (known result) }
{
    let mut made = Job::new(sink);
    perform_all(&mut made, exchanges);
    made
}

// The same over a sink that the caller keeps; gives back what the job knew in the end.
pub fn drive_lent<S: Sink>(sink: &mut S, exchanges: &mut [Exchange]) -> Setup
    ensures { Drove S.Sink.model sink.old exchanges.old exchanges.new sink.new (state_of result) }
{
    let job = drive(sink, exchanges);
    *job.setup()
}

// The same through a switch over that sink.
pub fn drive_switched<S: Sink>(sink: &mut S, variable: u32, exchanges: &mut [Exchange]) -> Setup
    ensures { Drove (switch_model S.Sink.model) (record { below = sink.old; variable = variable }) exchanges.old exchanges.new (record { below = sink.new; variable = variable }) (state_of result) }
{
    let switch = Switch {
        below: sink,
        variable,
    };
    let job = drive(switch, exchanges);
    *job.setup()
}

// The same through a switch over a switch over that sink.
pub fn drive_piled<S: Sink>(
    sink: &mut S,
    first: u32,
    second: u32,
    exchanges: &mut [Exchange],
) -> Setup
    ensures { Drove (switch_model (switch_model S.Sink.model)) (record { below = record { below = sink.old; variable = first }; variable = second }) exchanges.old exchanges.new (record { below = record { below = sink.new; variable = first }; variable = second }) (state_of result) }
{
    let switch = Switch {
        below: sink,
        variable: first,
    };
    let piled = Switch {
        below: switch,
        variable: second,
    };
    let job = drive(piled, exchanges);
    *job.setup()
}
