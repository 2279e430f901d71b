// The whole answer to a text, as it is printed.
ghost use Rattle.std.specs.Prelude.{◌≡◌, ◌≤◌, length, take, IfOk};
ghost use Rattle.reader.specs.Format.{read_text};
ghost use Rattle.reader.specs.Reads.{lengths, rooms_in};
ghost use Rattle.writing.specs.Reports.{refusal_text};
ghost use Rattle.spelling.specs.Room.{most};
ghost use Rattle.report.specs.Answered.{Printed};

use crate::report::report;
use reader::desk::Lent;
use rules::refusal::Refusal;
use std::alloc::{AllocError, Global};
use text::list::CAPACITY;
use text::words::Name;
use writing::refused::write_refusal;

// As many places of each list as are ever used.
const PLACES: usize = CAPACITY;

// Long enough for every report on a text that is read into them.
const OUTPUT: usize = 415_756;

// Writes the line of a refusal, which always fits; it answers the number of bytes.
fn put_refusal(refusal: Refusal, output: &mut [u8]) -> usize
    requires { 40 ≤ length output.old }
    ensures { take result output.new ≡ refusal_text refusal }
{
    write_refusal(refusal, output).unwrap_or(0)
}

// Writes the report, which always fits, or the line of the reader's refusal; it answers the number of bytes.
fn put_answer(text: &[u8], lent: &mut Lent, output: &mut [u8]) -> usize
    requires lent { lengths lent.old ≡ most }
    requires output { length output.old ≡ 415756 }
    ensures { Printed (read_text (rooms_in most) text.now) text.now most (take result output.new) }
{
    // a match: of a closure that wrote the refusal no proof would know what the output then holds
    match report(text, lent, output) {
        Ok(size) => size,
        Err(fault) => put_refusal(fault.into(), output),
    }
}

// The report on the targets of a text, or the line of the reader's refusal.
pub fn answer(heap: Global, text: &[u8]) -> Result<Vec<u8>, AllocError>
    ensures { IfOk result (λ v. Printed (read_text (rooms_in most) text.now) text.now most v.items) }
{
    let mut rules = [0u32; PLACES];
    let mut targets = [0u32; PLACES];
    let mut names = [Name::NONE; PLACES];
    let mut lent = Lent {
        rules: &mut rules,
        targets: &mut targets,
        names: &mut names,
    };
    let mut output = vec![in heap; 0u8; OUTPUT]?;
    let size = put_answer(text, &mut lent, output.as_mut_slice());
    output.truncate(size);
    Ok(output)
}
