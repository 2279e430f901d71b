// What a text is read as, in words.
ghost use Rattle.std.specs.Prelude.{IfOk};
ghost use Rattle.reader.specs.Format.{read_text};
ghost use Rattle.reader.specs.Reads.{lengths, rooms_in};
ghost use Rattle.summary.specs.Summary.{Said, Summarized};

use crate::quoting::push_refused;
use crate::telling::push_sheets;
use reader::desk::Lent;
use spelling::spelled::read;
use std::alloc::{AllocError, Global};
use text::list::CAPACITY;
use text::words::Name;

// What a text is read as by lent places.
fn summarize_in(heap: Global, text: &[u8], lent: &mut Lent) -> Result<Vec<u8>, AllocError>
    ensures { IfOk result (λ v. Said text.now (read_text (rooms_in (lengths lent.old)) text.now) v.items) }
{
    let mut out = Vec::new(heap);
    match read(text, lent) {
        Ok(sizes) => push_sheets(&mut out, text, lent, sizes)?,
        Err(fault) => push_refused(&mut out, text, fault)?,
    }
    Ok(out)
}

// What a text is read as: the width, the counts, the constants by number, and the line on which each rule and target
// begins; or the refusal, with the line that it names.
pub fn summarize(heap: Global, text: &[u8]) -> Result<Vec<u8>, AllocError>
    ensures { IfOk result (λ v. Summarized text.now v.items) }
{
    let mut rules = vec![in heap; 0u32; CAPACITY]?;
    let mut targets = vec![in heap; 0u32; CAPACITY]?;
    let mut names = vec![in heap; Name::NONE; CAPACITY]?;
    let mut lent = Lent {
        rules: rules.as_mut_slice(),
        targets: targets.as_mut_slice(),
        names: names.as_mut_slice(),
    };
    summarize_in(heap, text, &mut lent)
}
