// Where the rows of a relation break a rule of a book.
ghost use Rattle.std.specs.Prelude.{◌≡◌, MatchOption};
ghost use Rattle.search.specs.Spots.{Found, LookedAt, Quiet};

use crate::choices::choices_of;
use crate::look::{begin, begin_doubled, from_place, look_from};
use crate::relation::Relation;
use crate::seen::Seen;
use crate::spot::Spot;
use rules::book::Book;

// What a search works in. Nothing is asked of what it holds before, so one serves for any number of searches.
#[derive(Clone, Copy)]
pub struct Scratch {
    pub(crate) seen: Seen,
    pub(crate) tests: u64,
}

impl Scratch {
    pub fn new() -> Scratch {
        Scratch {
            seen: Seen::new(),
            tests: 0,
        }
    }

    // How many times a row was held against a row of a pattern, in all searches so far (modulo 2^64).
    pub fn tests(&self) -> u64
        ensures { result ≡ self.now.tests }
    {
        self.tests
    }
}

// A look at one rule that walks through the placings of its doubled form, one by one: slow, and a measure for others.
pub fn look_plainly<R: Relation, B: Book>(
    relation: &R,
    book: &B,
    rule: usize,
    scratch: &mut Scratch,
) -> Option<Spot>
    ensures { LookedAt (R.Relation.meaning relation.now).rows (B.Book.meaning book.now).rules rule result }
{
    let choices = choices_of(relation);
    let count = choices.count();
    if let Some(look) = begin_doubled(relation, book, rule) {
        for m in 0..count {
            if let Some(spot) = from_place(relation, &look, &choices, m, &mut scratch.tests) {
                return Some(spot);
            }
        }
    }
    None
}

// Looks at `turns` rules, from rule `first` on and round past the last, for a break; none if the relation keeps them all.
pub fn find_break<R: Relation, B: Book>(
    relation: &R,
    book: &B,
    first: usize,
    turns: usize,
    scratch: &mut Scratch,
) -> Option<Spot>
    ensures { MatchOption result (Quiet (R.Relation.meaning relation.now).rows (B.Book.meaning book.now).rules first turns) (Found (R.Relation.meaning relation.now).rows (B.Book.meaning book.now).rules first turns) }
{
    let count = book.count();
    if count == 0 {
        return None;
    }
    let choices = choices_of(relation);
    let tries = choices.count();
    let most = turns.min(count);
    let start = first % count;
    let mut found = None;
    // Rules and choices in nested loops, a form that was asked for: left by label, so that the first break ends both.
    'search: for turn in 0..most {
        let number = (start + turn) % count;
        if let Some(look) = begin(relation, book, number, &mut scratch.seen) {
            for m in 0..tries {
                if let Some(spot) = look_from(relation, &look, &choices, m, scratch) {
                    found = Some(spot);
                    break 'search;
                }
            }
        }
    }
    found
}
