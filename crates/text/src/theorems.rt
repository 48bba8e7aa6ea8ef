// What the lines and the words are, apart from how they are found.
ghost use Rattle.text.specs.Laws.{LinesLaw, WordsLaw};

// The laws of lines and of words hold.
pub fn splitting_stands()
    ensures lines { LinesLaw }
    ensures words { WordsLaw }
{}
