// A line of a text, quoted.
ghost use Rattle.std.specs.Prelude.{◌≡◌, ◌++◌, map, OnOk};
ghost use Rattle.std.specs.Iterator.{YieldsFirstRef, item_count};
ghost use Rattle.std.specs.Option.{option_map};
ghost use Rattle.summary.specs.Summary.{line_numbered, quote_text, refused_text, shown};
ghost use Rattle.text.specs.Lines.{lines_at, lines_from};
ghost use Rattle.writing.specs.Reports.{refusal_text};

use reader::fault::ReadFault;
use rules::refusal::Refusal;
use std::alloc::AllocError;
use text::lines::line_end;

// The lines of a text from a place on, one after another.
#[derive(Drop)]
struct Lines<'t> {
    text: &'t [u8],
    from: usize,
}

impl<'t> Iterator for Lines<'t> {
    type Item = &'t [u8];

    ghost next_gives = { YieldsFirstRef (λ l. map (λ line. line.bytes) (lines_from l.text.now l.from)) };

    ghost remaining = { item_count (λ l. map (λ line. line.bytes) (lines_from l.text.now l.from)) };

    fn next(&mut self) -> Option<&'t [u8]> {
        if self.from >= self.text.len() {
            return None;
        }
        let end = line_end(self.text, self.from);
        let line = &self.text[self.from..end];
        self.from = end + 1;
        Some(line)
    }
}

// The line with this number, from 1, or none.
pub fn line_numbered(text: &[u8], number: usize) -> Option<&[u8]>
    ensures { option_map (λ l. l.now) result ≡ line_numbered (lines_at 0 text.now) number }
{
    let skip = number.checked_sub(1)?;
    Lines { text, from: 0 }.nth(skip)
}

// How a byte is shown.
fn show(b: u8) -> u8
    ensures { result ≡ shown b }
{
    if b < 0x20 || b > 0x7e { b'?' } else { b }
}

// Adds bytes as they are shown.
pub fn push_shown(out: &mut Vec<u8>, bytes: &[u8]) -> Result<(), AllocError>
    ensures { OnOk result (out.new.items ≡ out.old.items ++ map shown bytes.now) }
{
    for b in bytes {
        out.push(show(*b))?;
    }
    Ok(())
}

// Adds the line with this number, where there is one.
fn push_quote(out: &mut Vec<u8>, text: &[u8], number: usize) -> Result<(), AllocError>
    ensures { OnOk result (out.new.items ≡ out.old.items ++ quote_text (line_numbered (lines_at 0 text.now) number)) }
{
    if let Some(line) = line_numbered(text, number) {
        push_shown(out, line)?;
        out.push(b'\n')?;
    }
    Ok(())
}

// Adds the line of a refusal.
fn push_refusal(out: &mut Vec<u8>, refusal: Refusal) -> Result<(), AllocError>
    ensures { OnOk result (out.new.items ≡ out.old.items ++ refusal_text refusal) }
{
    let line = format!(in *out.allocator(); "{refusal}\n")?;
    out.extend_from_slice(line.as_bytes())
}

// Adds the refusal, and the line of the text that it names.
#[tactic(auto, unfolding(crate::specs::Summary::refused_text))]
pub(crate) fn push_refused(
    out: &mut Vec<u8>,
    text: &[u8],
    fault: ReadFault,
) -> Result<(), AllocError>
    ensures { OnOk result (out.new.items ≡ out.old.items ++ refused_text text.now fault) }
{
    push_refusal(out, fault.into())?;
    push_quote(out, text, fault.line)
}
