// Some lines and their answers.
ghost use Rattle.frames.specs.Cases.{Cases};

// The cases stand.
pub fn cases_stand()
    ensures { Cases }
{}
