// A sink as the receiver of a list of clauses.
ghost use Rattle.job.specs.Feeding.{feeding};

use cnf::clause::Literal;
use cnf::sink::Sink;
use encode::Receiver;

#[derive(Drop)]
pub struct Feed<S> {
    pub sink: S,
}

impl<S: Sink> Receiver for Feed<S> {
    ghost reception = { feeding S.Sink.model };

    fn put(&mut self, clause: &[Literal]) {
        let _ = self.sink.take(clause);
    }
}
