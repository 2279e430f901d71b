ghost use Rattle.std.specs.Prelude.{◌≡◌, MatchResult, MatchOption, Some, None};
ghost use Rattle.std.specs.List.{slice_get};
ghost use Rattle.sheets.specs.Reads.{rule_at, sheet_meaning};
ghost use Rattle.sheets.specs.Facts.{Opened};
ghost use Rattle.sheets.specs.Laws.{Passing, Failing, ReadBack, Opens};
ghost use Rattle.sheets.specs.Wells.{sheet_well};

use crate::reads::RuleWords;
use crate::table::{Opening, table};
use rules::book::Book;
use rules::fault::BookFault;
use rules::term::{Kind, Term};

// Checks a sheet. The fault's place is the index of the first word that is out of range or names a variable that is
// not in its rule's rows, or the length where the words run out.
pub fn check(words: &[u32]) -> Result<(), BookFault>
    ensures answers { MatchResult result (λ _. Passing words.now) (Failing words.now) }
    ensures reads { ReadBack words.now result }
{
    table(words)?;
    Ok(())
}

// A book written down as words, with the places where its rules begin.
#[derive(Clone, Copy)]
pub struct Sheet<'a> {
    words: &'a [u32],
    opening: Opening,
    ghost opened: { Opened words.now opening.width opening.count opening.starts },
}

impl<'a> Sheet<'a> {
    // Opens a sheet; one that fails the check has width 1 and no rules.
    pub fn open(words: &'a [u32]) -> Sheet<'a>
        ensures same { result.words.now ≡ words.now }
        ensures opens { Opens words.now (sheet_meaning result.words.now) }
    {
        let opening = table(words).unwrap_or(Opening::EMPTY);
        Sheet { words, opening }
    }

    // A rule, in the words where it stands.
    fn rule(&self, rule: usize) -> Option<RuleWords<'a>>
        ensures { MatchOption result (slice_get (sheet_meaning self.now.words.now).rules rule ≡ None) (λ r. slice_get (sheet_meaning self.now.words.now).rules rule ≡ Some (rule_at r.words.now r.width r.at)) }
    {
        if rule >= self.opening.count {
            return None;
        }
        Some(RuleWords {
            words: self.words,
            width: self.opening.width,
            at: self.opening.starts[rule],
        })
    }
}

impl<'a> Book for Sheet<'a> {
    ghost meaning = { λ s. sheet_meaning s.words.now };

    ghost well = { λ s. sheet_well s.words.now };

    fn width(&self) -> usize {
        self.opening.width
    }

    fn count(&self) -> usize {
        self.opening.count
    }

    fn kind(&self, rule: usize) -> Option<Kind> {
        Some(self.rule(rule)?.kind())
    }

    fn rows(&self, rule: usize) -> Option<usize> {
        Some(self.rule(rule)?.rows())
    }

    fn term(&self, rule: usize, row: usize, column: usize) -> Option<Term> {
        self.rule(rule)?.term(row, column)
    }

    fn left(&self, rule: usize, k: usize) -> Option<u8> {
        self.rule(rule)?.left(k)
    }

    fn pair(&self, rule: usize, k: usize) -> Option<(Term, Term)> {
        self.rule(rule)?.pair(k)
    }
}
