// The laws of reading.
ghost use Rattle.spelling.specs.Laws.{ReadSpells, SpelledReads, SpellsOne, RefusedSpellsNothing, RefusedLines};
ghost use Rattle.spelling.specs.Exactly.{ReadFits, FittingReads, SpellsOneBook, RefusedRoom};
ghost use Rattle.spelling.specs.Room.{WholePutDown, FirstPutDown};

// A text is read exactly if it is at most 65,536 bytes long and spells a book and targets that fit in the lent places,
// and it is read as what it spells: no text spells two things. A refusal for a byte, a form, a count or a variable tells
// that no text with the same lines up to there spells anything; for its lines, that a line is missing or the lines
// before are the whole. It is refused for want of room at line 0 exactly if it is longer, and at a line exactly if what
// the lines before put down fits in and with this line does not.
pub fn reading_stands()
    ensures read { ReadSpells }
    ensures spelled { SpelledReads }
    ensures one { SpellsOne }
    ensures refused { RefusedSpellsNothing }
    ensures lines { RefusedLines }
    ensures fits { ReadFits }
    ensures fitting { FittingReads }
    ensures alone { SpellsOneBook }
    ensures room { RefusedRoom }
{}

// What the first lines of a text put down is the front of what more lines do, and the lines of a whole text put down
// what it spells.
pub fn putting_stands()
    ensures whole { WholePutDown }
    ensures first { FirstPutDown }
{}
