// Reading a rule out of any book.
ghost use Rattle.std.specs.Prelude.{◌≡◌, ℕ, ◌<◌, ◌≤◌, length, Some, MatchOption, slice_index_or};
ghost use Rattle.rules.specs.declared.term.Term.{Term};
ghost use Rattle.rules.specs.Books.{term_at};
ghost use Rattle.rules.specs.Loaded.{Codes, Filled, Loaded, no_row, no_term};

use crate::book::Book;
use crate::loaded::{LoadedRule, TermRow};
use crate::term::{BASE, Term};
use std::array;

// The code of a term, one number for either kind: for whoever writes terms down as words of a sheet.
pub fn code_of(t: Term) -> u32
    ensures { Codes t result }
{
    match t {
        Term::Constant(c) => c,
        Term::Variable(v) => BASE + v as u32,
    }
}

// A row of a pattern.
fn load_row<B: Book>(book: &B, rule: usize, row: usize) -> TermRow
    ensures { (j : ℕ) → j < 8 → (t : Term) → term_at (B.meaning book.now).rules rule row j ≡ Some t → slice_index_or result.terms j no_term ≡ t }
{
    TermRow {
        terms: array::from_fn(|column| book.term(rule, row, column).unwrap_or(Term::Constant(0))),
    }
}

// The rows of a pattern, of which there are at most four.
fn load_rows<B: Book>(book: &B, rule: usize) -> [TermRow; 8]
    ensures { (i : ℕ) → i < 4 → (j : ℕ) → j < 8 → (t : Term) → term_at (B.meaning book.now).rules rule i j ≡ Some t → slice_index_or (slice_index_or result i no_row).terms j no_term ≡ t }
{
    array::from_fn(|row| if row < 4 {
        load_row(book, rule, row)
    } else {
        TermRow {
            terms: [Term::Constant(0); 8],
        }
    })
}

// Fills the places with the answers, in order, up to the first question that has none. Says how many there are.
fn fill<T: Copy, F: Fn(usize) -> Option<T>>(places: &mut [T], ask: F) -> usize
    requires { F.IsAlwaysCallable ask }
    ensures { Filled (F.post ask) places.new result }
{
    for (k, place) in places.iter_mut().enumerate() {
        match ask(k) {
            Some(answer) => *place = answer,
            None => return k,
        }
    }
    places.len()
}

// Rule number `rule` of the book, or none past the last.
pub fn load<B: Book>(book: &B, rule: usize) -> Option<LoadedRule>
    ensures { MatchOption result (length (B.meaning book.now).rules ≤ rule) (Loaded (B.meaning book.now) rule) }
{
    let kind = book.kind(rule)?;
    let row_count = book.rows(rule)?;
    let mut left = [0; 32];
    let left_count = fill(&mut left, |k| book.left(rule, k));
    let mut pairs = [(Term::Constant(0), Term::Constant(0)); 32];
    let pair_count = fill(&mut pairs, |k| book.pair(rule, k));
    Some(LoadedRule {
        kind,
        width: book.width(),
        rows: load_rows(book, rule),
        row_count,
        left,
        left_count,
        pairs,
        pair_count,
    })
}
