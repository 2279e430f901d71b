// The words of a line, one after another.
ghost use Rattle.std.specs.Prelude.{◌≡◌, ◌==◌, ◌≤◌, map, length};
ghost use Rattle.std.specs.List.{AllByRecursion, position_or_len};
ghost use Rattle.std.specs.Iterator.{YieldsFirst, item_count};
ghost use Rattle.text.specs.Words.{word_in, line_words, Stands};

use crate::words::Name;
use std::marker::Model;

// How many bytes stand before the first `stop`.
pub(crate) fn length_before(bytes: &[u8], stop: u8) -> usize
    ensures is { result ≡ position_or_len (λ b. b == stop) bytes.now }
    ensures bound { result ≤ length bytes.now }
{
    bytes.iter().position(|b| *b == stop).unwrap_or(bytes.len())
}

// The words that a line has left, as the list of their names.
#[derive(Drop)]
pub struct Words<'t> {
    rest: &'t [u8],
    // Where `rest` begins in the text.
    place: usize,
}

impl<'t> Model for Words<'t> {
    ghost use Rattle.std.specs.Prelude.{List, ◌+◌, ◌^◌, ◌<◌, map, length};
    ghost use Rattle.text.specs.declared.words.Name.{Name};
    ghost use Rattle.text.specs.Words.{words_at, name_of};

    ghost Value = { List Name };

    ghost view = { λ w. map name_of (words_at w.place w.rest.now) };

    ghost invariant = { λ w. w.place + length w.rest.now < 2 ^ 64 };
}

impl<'t> Words<'t> {
    // Those of the line that goes on at `from` and ends at `end`.
    pub fn of_line(text: &'t [u8], from: usize, end: usize) -> Words<'t>
        ensures words { map (word_in text.now) result ≡ line_words text.now from end }
        ensures stand { AllByRecursion (Stands text.now from end) result }
    {
        let end = end.min(text.len());
        let place = from.min(end);
        Words {
            rest: &text[place..end],
            place,
        }
    }
}

impl<'t> Iterator for Words<'t> {
    type Item = Name;

    ghost next_gives = { YieldsFirst (λ rest. rest) };

    ghost remaining = { item_count (λ rest. rest) };

    fn next(&mut self) -> Option<Name> {
        let spaces = self.rest.iter().position(|b| *b != b' ')?;
        let word = &self.rest[spaces..];
        let length = length_before(word, b' ');
        let place = self.place + spaces;
        self.rest = &word[length..];
        self.place = place + length;
        Some(Name { place, length })
    }
}
