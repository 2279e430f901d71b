ghost use Rattle.std.specs.Prelude.{◌≡◌};
ghost use Rattle.joins.specs.Joins.{Answers, Stands, fits, join_well, join_meaning};

use crate::fault::JoinFault;
use crate::place::Place;
use rules::book::Book;
use rules::term::{Kind, Term};

// Whether two books can be joined: the question to ask beforehand.
pub fn check_join<A: Book, B: Book>(first: &A, second: &B) -> Result<(), JoinFault>
    ensures { Answers (A.Book.meaning first.now) (B.Book.meaning second.now) result }
{
    if first.width() != second.width() {
        return Err(JoinFault::WidthsDiffer);
    }
    if first.count() + second.count() > 1024 {
        return Err(JoinFault::TooManyRules);
    }
    Ok(())
}

// The first book's rules and then the second's. A pair that cannot be joined is the first book alone.
#[derive(Clone, Copy)]
pub struct Joined<A: Book, B: Book> {
    pub first: A,
    pub second: B,
}

impl<A: Book, B: Book> Joined<A, B> {
    fn fit(&self) -> bool
        ensures { result ≡ fits (A.Book.meaning self.now.first) (B.Book.meaning self.now.second) }
    {
        check_join(&self.first, &self.second).is_ok()
    }

    fn place(&self, rule: usize) -> Option<Place>
        ensures { Stands result (join_meaning (A.Book.meaning self.now.first) (B.Book.meaning self.now.second)).rules (A.Book.meaning self.now.first).rules (B.Book.meaning self.now.second).rules rule }
    {
        let count = self.first.count();
        if rule < count {
            return Some(Place::First(rule));
        }
        self.fit().then_some(Place::Second(rule - count))
    }
}

impl<A: Book, B: Book> Book for Joined<A, B> {
    ghost meaning = { λ s. join_meaning (A.Book.meaning s.first) (B.Book.meaning s.second) };

    ghost well = { λ s. join_well (A.Book.meaning s.first) (B.Book.meaning s.second) (A.Book.well s.first) (B.Book.well s.second) };

    fn width(&self) -> usize {
        self.first.width()
    }

    fn count(&self) -> usize {
        let count = self.first.count();
        if self.fit() {
            count + self.second.count()
        } else {
            count
        }
    }

    // Each question goes to the book where the rule stands. The five stay apart: a closure that asks takes one type of
    // book, and here there are two.
    fn kind(&self, rule: usize) -> Option<Kind> {
        match self.place(rule)? {
            Place::First(i) => self.first.kind(i),
            Place::Second(i) => self.second.kind(i),
        }
    }

    fn rows(&self, rule: usize) -> Option<usize> {
        match self.place(rule)? {
            Place::First(i) => self.first.rows(i),
            Place::Second(i) => self.second.rows(i),
        }
    }

    fn term(&self, rule: usize, row: usize, column: usize) -> Option<Term> {
        match self.place(rule)? {
            Place::First(i) => self.first.term(i, row, column),
            Place::Second(i) => self.second.term(i, row, column),
        }
    }

    fn left(&self, rule: usize, k: usize) -> Option<u8> {
        match self.place(rule)? {
            Place::First(i) => self.first.left(i, k),
            Place::Second(i) => self.second.left(i, k),
        }
    }

    fn pair(&self, rule: usize, k: usize) -> Option<(Term, Term)> {
        match self.place(rule)? {
            Place::First(i) => self.first.pair(i, k),
            Place::Second(i) => self.second.pair(i, k),
        }
    }
}
