// The lines of a text.
ghost use Rattle.std.specs.Prelude.{◌≡◌, ◌+◌, ◌≤◌, length, drop};
ghost use Rattle.std.specs.List.{prefix_len};
ghost use Rattle.text.specs.Lines.{in_line, clean, line_at};

use crate::line_words::length_before;
use crate::words::{Name, part_of};

// Where the line that begins at `from` ends.
pub fn line_end(text: &[u8], from: usize) -> usize
    ensures is { result ≡ from + prefix_len in_line (drop from text.now) }
    ensures bound { from ≤ length text.now → result ≤ length text.now }
{
    if from > text.len() {
        return from;
    }
    from + length_before(&text[from..], b'\n')
}

// Whether each byte is one that a line may have.
pub fn is_clean(line: &[u8]) -> bool
    ensures { result ≡ clean line.now }
{
    line.iter().all(|b| (0x20..=0x7e).contains(b))
}

// Whether each byte of the line from `from` up to `end` is one that a line may have.
pub fn line_clean(text: &[u8], from: usize, end: usize) -> bool
    ensures { result ≡ clean (line_at text.now from end).bytes }
{
    is_clean(part_of(
        text,
        Name {
            place: from,
            length: end.saturating_sub(from),
        },
    ))
}
