// Worked cases of the definitions, as one table.
#![tactic(auto)]

ghost use Rattle.cases.specs.Table.{Cases};

// Each case stands.
pub fn ten_cases()
    ensures { Cases }
{}
