// Words are put down.
ghost use Rattle.std.specs.Prelude.{◌≡◌, ◌≤◌, map, MatchResult};
ghost use Rattle.std.specs.List.{AllByRecursion};
ghost use Rattle.text.specs.Filled.{items, room, Same};
ghost use Rattle.text.specs.Words.{word_in};
ghost use Rattle.reader.specs.Format.{places, number_of, seen_with, put_word, put_term, put_terms};
ghost use Rattle.reader.specs.Lists.{words_in, Inside, Within};
ghost use Rattle.reader.specs.Held.{held, rooms_of, words_to, Answers};

use crate::desk::{Desk, Part};
use crate::fault::Cause;
use rules::term::BASE;
use text::line_words::Words;
use text::list::{Places, push};
use text::words::{Name, is_variable, number_in, part_of};

// How many words of the list, from the first on, are other words.
pub(crate) fn find(text: &[u8], list: &Places<Name>, w: Name) -> usize
    requires { Within list.now }
    ensures is { result ≡ number_of (words_in text.now (items list.now)) (word_in text.now w) }
    ensures bound { result ≤ list.now.used }
{
    number_in(text, &list.places[0..list.used], w)
}

// The number of a word by first appearance; a new word goes to the end of the list.
fn intern(text: &[u8], list: &mut Places<Name>, w: Name) -> Result<u32, Cause>
    requires word { Inside text.now w }
    requires within { Within list.old }
    requires inside { AllByRecursion (Inside text.now) (items list.old) }
    ensures same { Same list.old list.new }
    ensures within { Within list.new }
    ensures inside { AllByRecursion (Inside text.now) (items list.new) }
    ensures cases { MatchResult result
        (λ k. (k ≡ number_of (words_in text.now (items list.old)) (word_in text.now w)) × (k ≤ 4096)
        × (seen_with (places (room list.old)) (words_in text.now (items list.old)) (word_in text.now w) ≡ Ok (words_in text.now (items list.new))))
        (λ e. seen_with (places (room list.old)) (words_in text.now (items list.old)) (word_in text.now w) ≡ Err e) }
{
    let k = find(text, list, w);
    if k == list.used {
        push(list, w)?;
    }
    Ok(k as u32)
}

impl<'d> Desk<'d, '_, '_, '_, '_> {
    // The words of the line up to `end`.
    pub(crate) fn words(&self, end: usize) -> Words<'d>
        ensures words { map (word_in self.now.text.now) result ≡ words_to self.now end }
        ensures inside { AllByRecursion (Inside self.now.text.now) result }
    {
        Words::of_line(self.text, self.at.from, end)
    }

    // Puts a word into the sheet that is being filled.
    pub(crate) fn put_word(&mut self, x: u32) -> Result<(), Cause>
        ensures { Answers result self.old self.new (put_word (rooms_of self.old) (held self.old) x) (λ _. held self.new) }
    {
        match self.part {
            Part::Rules => push(self.rules, x)?,
            Part::Targets => push(self.targets, x)?,
        }
        Ok(())
    }

    // Puts down a word of a row, a list or a pair.
    fn put_term(&mut self, w: Name) -> Result<(), Cause>
        requires { Inside self.old.text.now w }
        ensures { Answers result self.old self.new (put_term (rooms_of self.old) (held self.old) (word_in self.old.text.now w)) (λ _. held self.new) }
    {
        if is_variable(part_of(self.text, w)) {
            let k = intern(self.text, self.vars, w)?;
            return self.put_word(BASE + k);
        }
        let n = intern(self.text, self.names, w)?;
        self.put_word(n)
    }

    // Puts down each word of the line up to `end`.
    pub(crate) fn put_terms(&mut self, end: usize) -> Result<(), Cause>
        ensures { Answers result self.old self.new (put_terms (rooms_of self.old) (held self.old) (words_to self.old end)) (λ _. held self.new) }
    {
        for w in self.words(end) {
            self.put_term(w)?;
        }
        Ok(())
    }
}
