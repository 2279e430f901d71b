// The line of a refusal.
ghost use Rattle.std.specs.Prelude.{[], ◌∷◌, length};
ghost use Rattle.pieces.specs.Put.{Puts};
ghost use Rattle.writing.specs.Reports.{refusal_text};
ghost use Rattle.writing.specs.Faults.{short_at};
ghost use Rattle.writing.specs.Fitting.{Writes};

use crate::closing::close;
use crate::room::TooShort;
use pieces::output::{Output, Short};
use pieces::piece::Piece;
use pieces::word::Word;
use rules::refusal::Refusal;

fn put_refusal(out: &mut Output, refusal: Refusal) -> Result<(), Short>
    ensures { Puts out.old (refusal_text refusal) result out.new }
{
    out.put_line(
        b"",
        &[
            Piece::Fixed(Word::Refused),
            Piece::Number(usize::from(refusal.number)),
            Piece::Fixed(Word::from(refusal.layer)),
            Piece::Number(refusal.place),
        ],
    )
}

// Writes a refusal; it answers the number of bytes.
pub fn write_refusal(refusal: Refusal, output: &mut [u8]) -> Result<usize, TooShort>
    ensures { Writes short_at (length output.old) (refusal_text refusal ∷ []) result output.new }
{
    let mut out = Output {
        places: output,
        used: 0,
    };
    let put = put_refusal(&mut out, refusal).map_err(|_| TooShort { place: 0 });
    close(&mut out, put)
}
