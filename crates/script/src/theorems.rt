// Which bytes of a text matter, and that the sink does not: each function's contract is a theorem, and its body is nothing.
ghost use Rattle.script.specs.Cut.{ScriptCut, FileCut};
ghost use Rattle.script.specs.Same.{SameScript};

use cnf::sink::Sink;

// What comes of the first 1,471 bytes of a text as a script, over any sink, is what comes of the text.
pub fn script_cut<S: Sink>()
    ensures { ScriptCut S.Sink.model }
{}

// And so is the file that is made of them.
pub fn file_cut()
    ensures { FileCut }
{}

// A script that is accepted whole over two sinks is the same calls over both, and the job knows the same in the end.
pub fn same_script<S: Sink, T: Sink>()
    ensures { SameScript S.Sink.model T.Sink.model }
{}
