// What a line is made of.
use crate::word::Word;
use text::words::Name;

// A fixed word, a number, a name, which is a part of a text, or `$` with a symbol.
#[derive(Clone, Copy, PartialEq, Eq, Debug)]
pub enum Piece {
    Fixed(Word),
    Number(usize),
    Named(Name),
    Symbol(u32),
}
