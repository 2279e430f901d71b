// The words of a line: parts of the text itself.
ghost use Rattle.std.specs.Prelude.{◌≡◌, ℕ, ◌+◌, ◌<◌, ◌≤◌, List, [], ◌∷◌, map, length, MatchOption};
ghost use Rattle.std.specs.List.{AllByRecursion};
ghost use Rattle.text.specs.Words.{word_in, line_words, part, same_word, number_in, is_variable, is_term};

use crate::line_words::Words;

// A part of a text.
#[derive(Clone, Copy, PartialEq, Eq, Debug)]
pub struct Name {
    pub place: usize,
    pub length: usize,
}

impl Name {
    // The name of nothing: it spells no byte.
    pub const NONE: Name = Name {
        place: 0,
        length: 0,
    };
}

// The next word of the line that goes on at `from` and ends at `end`.
pub fn next_in(text: &[u8], from: usize, end: usize) -> Option<Name>
    ensures { MatchOption result
        (line_words text.now from end ≡ [])
        (λ w. (line_words text.now from end ≡ word_in text.now w ∷ line_words text.now (w.place + w.length) end)
        × (from < w.place + w.length) × (w.place + w.length ≤ end) × (w.place + w.length ≤ length text.now)) }
{
    Words::of_line(text, from, end).next()
}

// The part of the text that a name names.
pub fn part_of(text: &[u8], name: Name) -> &[u8]
    ensures { result.now ≡ part text.now name }
{
    let from = name.place.min(text.len());
    let to = from + name.length.min(text.len() - from);
    &text[from..to]
}

// Whether two words are one constant, or one variable: by this one relation, so that no caller compares bytes of its own.
pub fn same_word(a: &[u8], b: &[u8]) -> bool
    ensures { result ≡ same_word a.now b.now }
{
    a == b
}

// How many of the names, from the first on, are other words than `word`.
pub fn number_in(text: &[u8], names: &[Name], word: Name) -> usize
    ensures is { result ≡ number_in (map (part text.now) names.now) (part text.now word) }
    ensures bound { result ≤ length names.now }
{
    let key = part_of(text, word);
    names
        .iter()
        .position(|name| same_word(part_of(text, *name), key))
        .unwrap_or(names.len())
}

// Whether a word is a variable: it begins with `$`.
pub fn is_variable(word: &[u8]) -> bool
    ensures { result ≡ is_variable word.now }
{
    word.starts_with(b"$")
}

// Whether a word is one that may stand in a row: at most 24 bytes, and not `$` alone.
pub fn is_term(word: &[u8]) -> bool
    ensures { result ≡ is_term word.now }
{
    word.len() <= 24 && word != b"$".as_slice()
}
