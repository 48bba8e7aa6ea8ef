// The theorems: each function's contract is one, and its body is nothing.
ghost use Rattle.mtl.specs.Cases.{Cases};
ghost use Rattle.mtl.specs.Fields.{Fields};
ghost use Rattle.mtl.specs.Statements.{Exact, Witnessed, Satisfiable, Periodic, OneRun, Ranged, Sized, Grown};

// An assignment satisfies a job's clauses exactly when it belongs to a settled run that keeps the requirements.
pub fn exact()
    ensures { Exact }
{}

// Every settled run has an assignment that belongs to it.
pub fn witnessed()
    ensures { Witnessed }
{}

// A job's clauses can be satisfied exactly when there is a settled run that keeps the requirements.
pub fn satisfiable()
    ensures { Satisfiable }
{}

// On a settled run the truth of every row goes round with the loop.
pub fn periodic()
    ensures { Periodic }
{}

// An assignment belongs to one run, as far as the signals with a row go, and those fix the truth of every row.
pub fn one_run()
    ensures { OneRun }
{}

// The lists name only the job's own variables, and have no empty clause.
pub fn ranged()
    ensures { Ranged }
{}

// How many cells the lists take, and how many literals their longest clauses have.
pub fn sized()
    ensures { Sized }
{}

// A row that is added leaves the earlier rows' variables, clauses and formulas as they were.
pub fn grown()
    ensures { Grown }
{}

// A row is the one of its fields.
pub fn fields()
    ensures { Fields }
{}

// The worked cases.
pub fn cases()
    ensures { Cases }
{}
