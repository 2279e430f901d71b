// A line from its pieces.
ghost use Rattle.std.specs.Prelude.{[]};
ghost use Rattle.pieces.specs.Put.{Puts};
ghost use Rattle.pieces.specs.Lines.{spell, line_of};

use crate::output::{Output, Short};
use crate::piece::Piece;
use text::words::part_of;

impl Output<'_> {
    fn put_symbol(&mut self, n: u32) -> Result<(), Short>
        ensures { Puts self.old (spell [] (Piece.Symbol n)) result self.new }
    {
        self.put_byte(b'$')?;
        self.put_number(n as usize)
    }

    // Puts a piece down.
    pub fn put_piece(&mut self, text: &[u8], piece: Piece) -> Result<(), Short>
        ensures { Puts self.old (spell text.now piece) result self.new }
    {
        match piece {
            Piece::Fixed(w) => self.put_word(w.bytes()),
            Piece::Number(n) => self.put_number(n),
            Piece::Named(name) => self.put_word(part_of(text, name)),
            Piece::Symbol(n) => self.put_symbol(n),
        }
    }

    // Puts a line down: its pieces with one space between, and its end.
    pub fn put_line(&mut self, text: &[u8], pieces: &[Piece]) -> Result<(), Short>
        ensures { Puts self.old (line_of text.now pieces.now) result self.new }
    {
        if let Some((first, others)) = pieces.split_first() {
            self.put_piece(text, *first)?;
            for piece in others {
                self.put_byte(b' ')?;
                self.put_piece(text, *piece)?;
            }
        }
        self.put_byte(b'\n')
    }
}
