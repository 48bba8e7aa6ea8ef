// What holds of the lines and of the worked cases, whatever is written.
ghost use Rattle.sinks.specs.Lines.{LinesExact};
ghost use Rattle.sinks.specs.Theorems.{Cases};

// Reading accepts just the texts that are made of lines, and gives their clauses.
pub fn lines_are_exact()
    ensures { LinesExact }
{}

pub fn worked_cases()
    ensures { Cases }
{}
