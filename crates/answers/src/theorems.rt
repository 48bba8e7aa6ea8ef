// What an answer's text is, apart from how it is read.
ghost use Rattle.answers.specs.Laws.{LineLaw, LiteralsLaw, SaysLaw, ToldLaw, SoundLaw, TotalLaw, ValuesLaw, AnswerLaw};
ghost use Rattle.answers.specs.Cases.{Cases};

// The laws of the form hold.
pub fn form_stands()
    ensures line { LineLaw }
    ensures literals { LiteralsLaw }
    ensures says { SaysLaw }
    ensures told { ToldLaw }
    ensures sound { SoundLaw }
    ensures total { TotalLaw }
    ensures values { ValuesLaw }
    ensures answer { AnswerLaw }
{}

// The cases stand.
pub fn cases_stand()
    ensures { Cases }
{}
