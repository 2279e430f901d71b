// The merchant's answer: a text in, verdicts and counter rows out.
ghost use Rattle.std.specs.Prelude.{◌≡◌, ◌≤◌, length};
ghost use Rattle.sheets.specs.Reads.{sheet_meaning};
ghost use Rattle.reader.specs.Format.{read_text};
ghost use Rattle.reader.specs.Reads.{lengths, no_name, rooms_in, SamePlaces};
ghost use Rattle.pieces.specs.Put.{Same, size};
ghost use Rattle.report.specs.Reported.{Sound, ReportFills, ReadsAndFills, kept, ReadAsSpelled, ReportOf, ToldOf};
ghost use Rattle.report.specs.Answered.{AnswerOf};

use crate::fault::ReportFault;
use crate::targets::put_targets;
use pieces::output::Output;
use reader::desk::{Lent, Sizes};
use reader::reader::read;
use sheets::laws::layout_stands;
use sheets::sheet::{Sheet, check};
use writing::closing::close;
use writing::naming::Naming;

// Writes the report on the two sheets that were read.
fn put_sheets(out: &mut Output, text: &[u8], lent: &Lent) -> Result<(), ReportFault>
    requires { out.old.used ≤ size out.old }
    ensures same { Same out.old out.new }
    ensures fills { Sound lent.now.rules.now lent.now.targets.now → ReportFills (sheet_meaning lent.now.rules.now) (sheet_meaning lent.now.targets.now) text.now lent.now.names.now out.old result out.new }
{
    let rules = &*lent.rules;
    let targets = &*lent.targets;
    check(rules)?;
    check(targets)?;
    let naming = Naming {
        text,
        names: &*lent.names,
    };
    let book = Sheet::open(rules);
    let wanted = Sheet::open(targets);
    put_targets(out, &naming, &book, &wanted)
}

// Reads the text, and writes the report on what it spells.
fn read_and_put(out: &mut Output, text: &[u8], lent: &mut Lent) -> Result<(), ReportFault>
    requires { out.old.used ≤ size out.old }
    ensures same { Same out.old out.new }
    ensures lent { SamePlaces lent.old lent.new }
    ensures reads { ReadsAndFills (read_text (rooms_in (lengths lent.old)) text.now) text.now (lengths lent.old)
        out.old result out.new lent.new.rules.now lent.new.targets.now lent.new.names.now }
{
    read(text, lent)?;
    put_sheets(out, text, lent)
}

// After a refusal all places are zero.
fn clear_after(put: Result<(), ReportFault>, lent: &mut Lent)
    ensures same { SamePlaces lent.old lent.new }
    ensures rules { lent.new.rules.now ≡ kept put lent.old.rules.now 0 }
    ensures targets { lent.new.targets.now ≡ kept put lent.old.targets.now 0 }
    ensures names { lent.new.names.now ≡ kept put lent.old.names.now no_name }
{
    if put.is_err() {
        lent.blank_past(Sizes::default());
    }
}

// Reads a text into the lent places and writes the report on its targets; it answers the number of bytes.
pub fn report(text: &[u8], lent: &mut Lent, output: &mut [u8]) -> Result<usize, ReportFault>
    ensures same { SamePlaces lent.old lent.new }
    ensures spelled { ReadAsSpelled text.now (read_text (rooms_in (lengths lent.old)) text.now) }
    ensures reports { ReportOf (read_text (rooms_in (lengths lent.old)) text.now) text.now (lengths lent.old)
        (length output.old) result lent.new.rules.now lent.new.targets.now lent.new.names.now output.new }
    ensures tells { ToldOf (read_text (rooms_in (lengths lent.old)) text.now) text.now (lengths lent.old)
        (length output.old) result output.new }
    ensures answers { AnswerOf (read_text (rooms_in (lengths lent.old)) text.now) text.now (lengths lent.old)
        (length output.old) result lent.new.rules.now lent.new.targets.now lent.new.names.now output.new }
{
    // what is laid out passes the sheet's check and reads back
    layout_stands();
    let mut out = Output {
        places: output,
        used: 0,
    };
    let put = read_and_put(&mut out, text, lent);
    clear_after(put, lent);
    close(&mut out, put)
}
