// The theorems of fill and run: each function's contract is one, and its body is nothing.
ghost use Rattle.witness.specs.Trips.{RoundTrip, Refill, RefillAfter};

use cnf::sink::Sink;

// A run that fill accepts comes back from run unchanged.
pub fn round_trip()
    ensures { RoundTrip }
{}

// An assignment that belongs to a run which obeys the job comes out of run as such a run, and fill makes the same bytes of it.
pub fn refill()
    ensures { Refill }
{}

// The same of every job over a sink of this kind, after any list of calls.
pub fn refill_after<S: Sink>(_sink: &S)
    ensures { RefillAfter S.Sink.model }
{}
