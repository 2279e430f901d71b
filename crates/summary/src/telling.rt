// What was read, told.
ghost use Rattle.std.specs.Prelude.{◌≡◌, ◌++◌, take, codes, OnOk};
ghost use Rattle.reader.specs.Lists.{words_in};
ghost use Rattle.sheets.specs.Reads.{sheet_meaning};
ghost use Rattle.summary.specs.Summary.{begins_text, names_text, rule_begins, summary_text, target_begins};

use crate::beginning::push_begins;
use crate::putting::{push_head, push_name};
use reader::desk::{Lent, Sizes};
use rules::book::Book;
use sheets::sheet::Sheet;
use std::alloc::AllocError;
use writing::naming::Naming;

// Adds a line for each constant.
pub fn push_names(out: &mut Vec<u8>, naming: &Naming) -> Result<(), AllocError>
    ensures { OnOk result (out.new.items ≡ out.old.items ++ names_text 0 (words_in naming.now.text.now naming.now.names.now)) }
{
    for (i, name) in naming.names.iter().enumerate() {
        push_name(out, naming.text, i, *name)?;
    }
    Ok(())
}

// Adds a line for each rule and each target, with the line of the text on which it begins.
pub fn push_books<B: Book>(out: &mut Vec<u8>, book: &B, targets: &B) -> Result<(), AllocError>
    ensures { OnOk result (out.new.items ≡ out.old.items ++ (begins_text (codes "rule") 1 (rule_begins (B.meaning book.now)) ++ begins_text (codes "target") 1 (target_begins (B.meaning book.now) (B.meaning targets.now)))) }
{
    let next = push_begins(out, book, "rule", 3)?;
    push_begins(out, targets, "target", next + 1)?;
    Ok(())
}

// Adds the summary of a book, targets and names.
#[tactic(auto, unfolding(crate::specs::Summary::summary_text))]
fn push_summary<B: Book>(
    out: &mut Vec<u8>,
    naming: &Naming,
    book: &B,
    targets: &B,
) -> Result<(), AllocError>
    ensures { OnOk result (out.new.items ≡ out.old.items ++ summary_text (B.meaning book.now) (B.meaning targets.now) (words_in naming.now.text.now naming.now.names.now)) }
{
    push_head(
        out,
        book.width(),
        book.count(),
        targets.count(),
        naming.names.len(),
    )?;
    push_names(out, naming)?;
    push_books(out, book, targets)
}

// Adds the summary of what was read into lent places.
pub(crate) fn push_sheets(
    out: &mut Vec<u8>,
    text: &[u8],
    lent: &Lent,
    sizes: Sizes,
) -> Result<(), AllocError>
    ensures { OnOk result (out.new.items ≡ out.old.items ++ summary_text (sheet_meaning lent.now.rules.now) (sheet_meaning lent.now.targets.now) (words_in text.now (take sizes.names lent.now.names.now))) }
{
    let book = Sheet::open(&*lent.rules);
    let targets = Sheet::open(&*lent.targets);
    let names = &*lent.names;
    let naming = Naming {
        text,
        names: &names[..sizes.names.min(names.len())],
    };
    push_summary(out, &naming, &book, &targets)
}
