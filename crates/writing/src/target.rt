// The lines of a target.
ghost use Rattle.std.specs.Prelude.{◌≡◌, [], length, slice_index_or};
ghost use Rattle.pieces.specs.Put.{Puts};
ghost use Rattle.pieces.specs.Lines.{line_of};
ghost use Rattle.writing.specs.Outcomes.{rows_of};
ghost use Rattle.writing.specs.Reports.{entry_piece, row_line, rows_lines, lines_text, count_line, verdict_line, target_text};

use crate::entries::Entries;
use crate::naming::Naming;
use crate::told::Told;
use pieces::output::{Output, Short};
use pieces::piece::Piece;
use pieces::word::Word;
use rules::term::BASE;
use text::words::Name;

// A line of a word and a number.
pub fn put_count(out: &mut Output, w: Word, n: usize) -> Result<(), Short>
    ensures { Puts out.old (line_of [] (count_line w n)) result out.new }
{
    out.put_line(b"", &[Piece::Fixed(w), Piece::Number(n)])
}

// The line that tells the verdict on target i.
fn put_verdict(out: &mut Output, i: usize, w: Word) -> Result<(), Short>
    ensures { Puts out.old (line_of [] (verdict_line i w)) result out.new }
{
    out.put_line(
        b"",
        &[
            Piece::Fixed(Word::Target),
            Piece::Number(i),
            Piece::Fixed(w),
        ],
    )
}

impl Naming<'_> {
    // How an entry of a row is written: a constant by its name, BASE + s as the symbol s.
    fn piece(&self, e: u32) -> Piece
        ensures { result ≡ entry_piece self.now.names.now e }
    {
        match e.checked_sub(BASE) {
            Some(symbol) => Piece::Symbol(symbol),
            None => Piece::Named(self.names.get(e as usize).copied().unwrap_or(Name::NONE)),
        }
    }

    // Writes one row, as `put_line` its pieces: one function over any iterator would ask of its callers that it ends.
    fn put_row<F: Told>(&self, out: &mut Output, told: &F, row: usize) -> Result<(), Short>
        ensures { Puts out.old (line_of self.now.text.now (row_line self.now.names.now (slice_index_or (rows_of (F.Told.outcome told.now)) row []))) result out.new }
    {
        let mut entries = Entries::of_row(told, row);
        if let Some(first) = entries.next() {
            out.put_piece(self.text, self.piece(first))?;
            for e in entries {
                out.put_byte(b' ')?;
                out.put_piece(self.text, self.piece(e))?;
            }
        }
        out.put_byte(b'\n')
    }

    // Writes the count of the rows, and each row.
    fn put_rows<F: Told>(&self, out: &mut Output, told: &F, count: usize) -> Result<(), Short>
        requires { count ≡ length (rows_of (F.Told.outcome told.now)) }
        ensures { Puts out.old (lines_text self.now.text.now (rows_lines self.now.names.now (rows_of (F.Told.outcome told.now)))) result out.new }
    {
        put_count(out, Word::Rows, count)?;
        for row in 0..count {
            self.put_row(out, told, row)?;
        }
        Ok(())
    }

    // Writes the lines of target i.
    pub fn put_target<F: Told>(&self, out: &mut Output, i: usize, told: &F) -> Result<(), Short>
        ensures { Puts out.old (target_text self.now.text.now self.now.names.now i (F.Told.outcome told.now)) result out.new }
    {
        match told.rows() {
            None => put_verdict(out, i, Word::Follows),
            Some(count) => {
                put_verdict(out, i, Word::Fails)?;
                self.put_rows(out, told, count)
            }
        }
    }
}
