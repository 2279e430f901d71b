ghost use Rattle.std.specs.Prelude.{◌≡◌, length};
ghost use Rattle.rules.specs.Books.{BookMeaning, WellFormedBook, kind_at, left_at, pair_at, rows_at, term_at};

use crate::term::{Kind, Term};

// A book of rules (a finite set of dependencies), by what it means: a width and a list of rules of that width. Rules,
// rows, columns and list places count from 0. A question past an end answers none, and no other question does.
pub trait Book {
    ghost meaning: { Self → BookMeaning };

    // Each implementation shows that what it means is well formed.
    ghost well: { (b : Self) → WellFormedBook (meaning b) };

    fn width(&self) -> usize
        ensures { result ≡ (meaning self.now).width };

    fn count(&self) -> usize
        ensures { result ≡ length (meaning self.now).rules };

    fn kind(&self, rule: usize) -> Option<Kind>
        ensures { result ≡ kind_at (meaning self.now).rules rule };

    fn rows(&self, rule: usize) -> Option<usize>
        ensures { result ≡ rows_at (meaning self.now).rules rule };

    fn term(&self, rule: usize, row: usize, column: usize) -> Option<Term>
        ensures { result ≡ term_at (meaning self.now).rules rule row column };

    fn left(&self, rule: usize, k: usize) -> Option<u8>
        ensures { result ≡ left_at (meaning self.now).rules rule k };

    // Pair k of a functional rule is its right variable k, twice.
    fn pair(&self, rule: usize, k: usize) -> Option<(Term, Term)>
        ensures { result ≡ pair_at (meaning self.now).rules rule k };
}

// A book that is lent is a book.
impl<'a, T: Book> Book for &'a T {
    ghost meaning = { λ s. T.Book.meaning s.now };

    ghost well = { λ s. T.Book.well s.now };

    fn width(&self) -> usize {
        (**self).width()
    }

    fn count(&self) -> usize {
        (**self).count()
    }

    fn kind(&self, rule: usize) -> Option<Kind> {
        (**self).kind(rule)
    }

    fn rows(&self, rule: usize) -> Option<usize> {
        (**self).rows(rule)
    }

    fn term(&self, rule: usize, row: usize, column: usize) -> Option<Term> {
        (**self).term(rule, row, column)
    }

    fn left(&self, rule: usize, k: usize) -> Option<u8> {
        (**self).left(rule, k)
    }

    fn pair(&self, rule: usize, k: usize) -> Option<(Term, Term)> {
        (**self).pair(rule, k)
    }
}
