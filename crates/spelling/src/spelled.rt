// Reading, by what texts spell.
ghost use Rattle.reader.specs.Format.{read_text};
ghost use Rattle.reader.specs.Reads.{lengths, rooms_in, Reads, SamePlaces};
ghost use Rattle.spelling.specs.Laws.{Tells};
ghost use Rattle.spelling.specs.Exactly.{TellsExactly};

use reader::desk::{Lent, Sizes};
use reader::fault::ReadFault;
use sheets::laws::layout_stands;

// Reads a text as what it spells, into the lent places. Of each kind at most 4,096 places are used.
// A text that is read is at most 65,536 bytes long and spells a book and targets that fit in; the places hold their
// sheets and the names, and else zero. After a refusal all places are zero, and it says why: no text with the same lines
// up to there spells anything; a line is missing, or the lines before are the whole; or there is no room, since the text
// is longer, or what the lines before put down fits in and with this line does not. So a text that spells something is
// refused only if it is longer or what it spells does not fit in.
pub fn read(text: &[u8], lent: &mut Lent) -> Result<Sizes, ReadFault>
    ensures same { SamePlaces lent.old lent.new }
    ensures reads { Reads text.now (lengths lent.old)
        (read_text (rooms_in (lengths lent.old)) text.now)
        result lent.new.rules.now lent.new.targets.now lent.new.names.now }
    ensures tells { Tells text.now (lengths lent.old)
        result lent.new.rules.now lent.new.targets.now lent.new.names.now }
    ensures exactly { TellsExactly text.now (lengths lent.old) result }
{
    // what is laid out passes the sheet's check and reads back
    layout_stands();
    reader::reader::read(text, lent)
}
