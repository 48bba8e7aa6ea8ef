// What a solver says of its clauses.
ghost use Rattle.std.specs.Prelude.{◌≡◌, false, MatchOption};
ghost use Rattle.answers.specs.Answer.{verdict_line, is_status};

#[derive(Clone, Copy, PartialEq, Eq, Debug)]
pub enum Verdict {
    Satisfiable,
    Unsatisfiable,
}

impl Verdict {
    // The verdict whose line it is.
    pub(crate) fn of_line(line: &[u8]) -> Option<Verdict>
        ensures { MatchOption result (is_status line.now ≡ false) (λ w. line.now ≡ verdict_line w) }
    {
        match line {
            b"s SATISFIABLE" => Some(Verdict::Satisfiable),
            b"s UNSATISFIABLE" => Some(Verdict::Unsatisfiable),
            _ => None,
        }
    }
}
