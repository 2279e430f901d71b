// Reads a text into two sheets and the names of its constants.
ghost use Rattle.std.specs.Prelude.{◌≡◌, ◌≤◌, length, MatchResult};
ghost use Rattle.text.specs.Filled.{Same};
ghost use Rattle.text.specs.Lines.{lines_at};
ghost use Rattle.reader.specs.Format.{Memo, whole_text, nothing, read_lines, read_text};
ghost use Rattle.reader.specs.Reads.{lengths, lengths_of, rooms_in, Reads, SamePlaces};
ghost use Rattle.reader.specs.Begun.{Listed, Begins};

use crate::desk::{Cursor, Desk, Lent, Part, Sizes};
use crate::fault::{Cause, ReadFault};
use text::list::Places;
use text::words::Name;

// The most bytes of a text that is read.
const MOST_BYTES: usize = 65_536;

// Takes all lines into lists that are empty.
fn take_lines<'d>(
    text: &'d [u8],
    rules: &'d mut Places<u32>,
    targets: &'d mut Places<u32>,
    names: &'d mut Places<Name>,
    vars: &'d mut Places<Name>,
) -> Result<(), ReadFault>
    requires short { length text.now ≤ 65536 }
    requires few { length vars.old.places.now ≡ 32 }
    requires empty { (rules.old.used ≡ 0) × (targets.old.used ≡ 0) × (names.old.used ≡ 0) × (vars.old.used ≡ 0) }
    ensures rules { Same rules.old rules.new }
    ensures targets { Same targets.old targets.new }
    ensures names { Same names.old names.new }
    ensures reads { let n = lengths_of rules.old.places.now targets.old.places.now names.old.places.now in
        let o = read_lines (rooms_in n) 1 whole_text nothing (lines_at 0 text.now) in MatchResult result
        (λ _. (m : Memo) × (o ≡ Ok m) × Listed text.now m rules.new targets.new names.new)
        (λ e. o ≡ Err e) }
{
    let mut desk = Desk {
        text,
        at: Cursor { from: 0, line: 1 },
        width: 0,
        part: Part::Rules,
        rules,
        targets,
        names,
        vars,
    };
    desk.take_text()
}

// Takes all lines of a text that is short enough into the first of the lent places.
fn read_short(text: &[u8], lent: &mut Lent) -> Result<Sizes, ReadFault>
    requires { length text.now ≤ 65536 }
    ensures same { SamePlaces lent.old lent.new }
    ensures reads { Begins text.now (read_lines (rooms_in (lengths lent.old)) 1 whole_text nothing (lines_at 0 text.now)) result lent.new }
{
    let mut own = [Name::NONE; 32];
    let mut vars = Places {
        places: &mut own,
        used: 0,
    };
    let mut rules = Places {
        places: &mut *lent.rules,
        used: 0,
    };
    let mut targets = Places {
        places: &mut *lent.targets,
        used: 0,
    };
    let mut names = Places {
        places: &mut *lent.names,
        used: 0,
    };
    take_lines(text, &mut rules, &mut targets, &mut names, &mut vars)?;
    Ok(Sizes {
        rules: rules.used,
        targets: targets.used,
        names: names.used,
    })
}

// Takes all lines of a text into the first of the lent places, if it is short enough.
fn read_into(text: &[u8], lent: &mut Lent) -> Result<Sizes, ReadFault>
    ensures same { SamePlaces lent.old lent.new }
    ensures reads { Begins text.now (read_text (rooms_in (lengths lent.old)) text.now) result lent.new }
{
    if text.len() > MOST_BYTES {
        return Err(ReadFault {
            cause: Cause::Room,
            line: 0,
        });
    }
    read_short(text, lent)
}

// Reads a text. The sheets and the names are put into the lent places, of each list into at most the first 4,096; the
// places that are not used are zero, and after a refusal all are.
pub fn read(text: &[u8], lent: &mut Lent) -> Result<Sizes, ReadFault>
    ensures same { SamePlaces lent.old lent.new }
    ensures reads { Reads text.now (lengths lent.old)
        (read_text (rooms_in (lengths lent.old)) text.now)
        result lent.new.rules.now lent.new.targets.now lent.new.names.now }
{
    let read = read_into(text, lent);
    lent.blank_past(read.unwrap_or_default());
    read
}
