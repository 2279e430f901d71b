// The laws of lines, words and counts.
ghost use Rattle.text.specs.Spelling.{WordsAreSpelled, LinesAreSpelled, CountsAreSpelled};

// The words of a line, the lines of a text and the number of a count are those that are spelled.
pub fn spelling_stands()
    ensures words { WordsAreSpelled }
    ensures lines { LinesAreSpelled }
    ensures counts { CountsAreSpelled }
{}
