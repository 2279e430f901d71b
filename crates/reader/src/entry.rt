// The lines with words of a rule: a row, a variable of a list, a pair.
ghost use Rattle.std.specs.Prelude.{◌≡◌, not, ◌||◌, []};
ghost use Rattle.text.specs.Words.{word_in, is_variable, part};
ghost use Rattle.reader.specs.Format.{fits as fitting, all_variables, all_known, shaped as shapely, known as knowing, entry as due, words_line, seen_in};
ghost use Rattle.reader.specs.Held.{held, rooms_of, words_to, Answers, stepped};

use crate::desk::{Desk, Entry};
use crate::fault::Cause;
use crate::put::find;
use text::words::{Name, is_term, is_variable, part_of};

impl Desk<'_, '_, '_, '_, '_> {
    // Whether a line has this many words, each with a word's form.
    fn fits(&self, end: usize, many: u32) -> bool
        ensures { result ≡ fitting many (words_to self.now end) }
    {
        let mut words = self.words(end);
        for _ in 0..many {
            if !words.next().is_some_and(|w| is_term(part_of(self.text, w))) {
                return false;
            }
        }
        words.next().is_none()
    }

    // Whether each word of a line is a variable.
    fn variables(&self, end: usize) -> bool
        ensures { result ≡ all_variables (words_to self.now end) }
    {
        self.words(end).all(|w| is_variable(part_of(self.text, w)))
    }

    // Whether a word, if it is a variable, is one of the rule's rows.
    fn is_known(&self, w: Name) -> bool
        ensures { result ≡ (not (is_variable (part self.now.text.now w)) || seen_in (held self.now).vars (word_in self.now.text.now w)) }
    {
        !is_variable(part_of(self.text, w)) || find(self.text, self.vars, w) < self.vars.used
    }

    // Whether each variable of a line is one of the rule's rows.
    fn all_known(&self, end: usize) -> bool
        ensures { result ≡ all_known (held self.now).vars (words_to self.now end) }
    {
        self.words(end).all(|w| self.is_known(w))
    }

    fn shaped(&self, end: usize, entry: Entry) -> bool
        ensures { result ≡ shapely self.now.width (words_to self.now end) entry }
    {
        match entry {
            Entry::Row => self.fits(end, self.width),
            Entry::Variable => self.fits(end, 1) && self.variables(end),
            Entry::Pair => self.fits(end, 2),
        }
    }

    fn known(&self, end: usize, entry: Entry) -> bool
        ensures { result ≡ knowing (held self.now).vars (words_to self.now end) entry }
    {
        match entry {
            Entry::Row => true,
            Entry::Variable | Entry::Pair => self.all_known(end),
        }
    }

    // Takes the words of such a line.
    pub(crate) fn entry_words(&mut self, end: usize, entry: Entry) -> Result<(), Cause>
        ensures { Answers result self.old self.new
            (words_line (rooms_of self.old) (held self.old) (words_to self.old end) (due entry))
            (λ _. stepped [] (held self.new)) }
    {
        if !self.shaped(end, entry) {
            return Err(Cause::Form);
        }
        if !self.known(end, entry) {
            return Err(Cause::Unknown);
        }
        self.put_terms(end)
    }
}
