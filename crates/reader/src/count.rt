// The lines of keywords: a count, the kind of a rule.
ghost use Rattle.std.specs.Prelude.{◌≡◌};
ghost use Rattle.sheets.specs.Layout.{kind_word};
ghost use Rattle.reader.specs.Format.{keyword as key_of, least as least_of, most as most_of, count_line, put_count, kind_line, after_count, after_kind, count as counted, kind as kinded, words_line};
ghost use Rattle.reader.specs.Held.{held, rooms_of, words_to, Answers, stepped};

use crate::desk::{Counting, Desk, Part};
use crate::fault::Cause;
use rules::term::Kind;
use text::counts::parse_count;
use text::words::{is_term, part_of, same_word};

impl Counting {
    // The word that its line begins with: as bytes and not as `Display`, since a part of the text is held against it.
    fn keyword(self) -> &'static [u8]
        ensures { result.now ≡ key_of self }
    {
        match self {
            Counting::Width => b"width",
            Counting::Rules => b"rules",
            Counting::Targets => b"targets",
            Counting::Rows => b"rows",
            Counting::Left => b"left",
            Counting::Right => b"right",
            Counting::Pairs => b"pairs",
        }
    }

    // The least and the most that there may be.
    fn range(self) -> (u32, u32)
        ensures least { result.0 ≡ least_of self }
        ensures most { result.1 ≡ most_of self }
    {
        match self {
            Counting::Width => (1, 8),
            Counting::Rules | Counting::Targets => (0, 256),
            Counting::Rows => (1, 4),
            Counting::Left | Counting::Right | Counting::Pairs => (0, 32),
        }
    }
}

// The word of a sheet for a kind: a function and no `From`, since neither type is of this crate.
fn kind_word(kind: Kind) -> u32
    ensures { result ≡ kind_word kind }
{
    match kind {
        Kind::Functional => 1,
        Kind::Equality => 2,
    }
}

impl Desk<'_, '_, '_, '_, '_> {
    // The count of a line that is a keyword and a count.
    fn count_line(&self, end: usize, counting: Counting) -> Result<u32, Cause>
        ensures { result ≡ count_line counting (words_to self.now end) }
    {
        let mut words = self.words(end);
        let key = part_of(self.text, words.next().ok_or(Cause::Form)?);
        let number = part_of(self.text, words.next().ok_or(Cause::Form)?);
        if words.next().is_some() || !same_word(key, counting.keyword()) || !is_term(number) {
            return Err(Cause::Form);
        }
        let (least, most) = counting.range();
        parse_count(number, least, most).ok_or(Cause::Count)
    }

    // Puts a count down, with what goes before it.
    fn put_count(&mut self, counting: Counting, n: u32) -> Result<(), Cause>
        ensures { Answers result self.old self.new (put_count (rooms_of self.old) (held self.old) n counting) (λ _. held self.new) }
    {
        match counting {
            Counting::Width => self.width = n,
            Counting::Targets => {
                self.part = Part::Targets;
                self.put_word(self.width)?;
            }
            Counting::Rows => self.vars.used = 0,
            Counting::Pairs => self.put_word(0)?,
            Counting::Rules | Counting::Left | Counting::Right => {}
        }
        self.put_word(n)
    }

    // Takes the words of a line with a count.
    pub(crate) fn count_words(&mut self, end: usize, counting: Counting) -> Result<u32, Cause>
        ensures { Answers result self.old self.new
            (words_line (rooms_of self.old) (held self.old) (words_to self.old end) (counted counting))
            (λ n. stepped (after_count counting n) (held self.new)) }
    {
        let n = self.count_line(end, counting)?;
        self.put_count(counting, n)?;
        Ok(n)
    }

    // The kind that a line of one word says.
    fn kind_line(&self, end: usize) -> Result<Kind, Cause>
        ensures { result ≡ kind_line (words_to self.now end) }
    {
        let mut words = self.words(end);
        let word = part_of(self.text, words.next().ok_or(Cause::Form)?);
        if words.next().is_some() {
            return Err(Cause::Form);
        }
        if same_word(word, b"functional") {
            return Ok(Kind::Functional);
        }
        if same_word(word, b"equality") {
            return Ok(Kind::Equality);
        }
        Err(Cause::Form)
    }

    // Takes the words of a line with a rule's kind.
    pub(crate) fn kind_words(&mut self, end: usize) -> Result<Kind, Cause>
        ensures { Answers result self.old self.new
            (words_line (rooms_of self.old) (held self.old) (words_to self.old end) kinded)
            (λ k. stepped (after_kind k) (held self.new)) }
    {
        let kind = self.kind_line(end)?;
        self.put_word(kind_word(kind))?;
        Ok(kind)
    }
}
