// The doubled form of a rule, as plain data.
ghost use Rattle.std.specs.Prelude.{◌≡◌, ℕ, ◌+◌, ◌<◌, ◌≤◌, length, take, MatchOption, slice_index_or};
ghost use Rattle.rules.specs.Books.{Small};
ghost use Rattle.rules.specs.Doubled.{copied, doubled};
ghost use Rattle.rules.specs.Loaded.{DoubledOf, loaded_pair, loaded_term, meant, no_row, no_term, OfBook, Sized};

use crate::book::Book;
use crate::load::load;
use crate::loaded::{LoadedRule, TermRow};
use crate::term::{Kind, Term};

// The term in the second copy: a left variable stays, any other variable v is the symbol 32 + v.
fn copied(left: &[u8], term: Term) -> Term
    requires { Small term }
    ensures { result ≡ copied left.now term }
{
    match term {
        Term::Constant(_) => term,
        Term::Variable(v) if left.contains(&v) => term,
        Term::Variable(v) => Term::Variable(32 + v),
    }
}

fn copied_row(rule: &LoadedRule, row: &TermRow) -> TermRow
    requires lefts { rule.now.left_count ≤ 32 }
    requires width { rule.now.width ≤ 8 }
    requires small { (j : ℕ) → j < rule.now.width → Small (slice_index_or row.now.terms j no_term) }
    ensures { (j : ℕ) → j < rule.now.width → slice_index_or result.terms j no_term ≡ copied (meant rule.now).left (slice_index_or row.now.terms j no_term) }
{
    let mut terms = row.terms;
    for term in &mut terms[..rule.width] {
        *term = copied(rule.left(), *term);
    }
    TermRow { terms }
}

// The rows of the pattern, and then their copies. What it asks of the rule is asked of the pairs and of the whole too: a
// type that carried it would be made for these three steps of one call.
fn doubled_rows(rule: &LoadedRule) -> [TermRow; 8]
    requires of { OfBook rule.now }
    requires sized { Sized rule.now }
    ensures first { (i : ℕ) → i < rule.now.row_count → slice_index_or result i no_row ≡ slice_index_or rule.now.rows i no_row }
    ensures second { (i : ℕ) → i < rule.now.row_count → (j : ℕ) → j < rule.now.width → slice_index_or (slice_index_or result (rule.now.row_count + i) no_row).terms j no_term ≡ copied (meant rule.now).left (loaded_term rule.now i j) }
{
    let mut rows = rule.rows;
    for (k, row) in rule.rows().iter().enumerate() {
        rows[rule.row_count + k] = copied_row(rule, row);
    }
    rows
}

// The second side of each pair is read in the second copy.
fn doubled_pairs(rule: &LoadedRule) -> [(Term, Term); 32]
    requires of { OfBook rule.now }
    requires sized { Sized rule.now }
    ensures { (k : ℕ) → k < rule.now.pair_count → slice_index_or result k (no_term, no_term) ≡ ((loaded_pair rule.now k).0, copied (meant rule.now).left (loaded_pair rule.now k).1) }
{
    let mut pairs = rule.pairs;
    for pair in &mut pairs[..rule.pair_count] {
        pair.1 = copied(rule.left(), pair.1);
    }
    pairs
}

fn doubled_of(rule: &LoadedRule) -> LoadedRule
    requires of { OfBook rule.now }
    requires sized { Sized rule.now }
    ensures means { meant result ≡ doubled (meant rule.now) }
    ensures width { result.width ≡ rule.now.width }
{
    match rule.kind {
        Kind::Functional => LoadedRule {
            kind: Kind::Equality,
            rows: doubled_rows(rule),
            row_count: rule.row_count + rule.row_count,
            left_count: 0,
            pairs: doubled_pairs(rule),
            ..*rule
        },
        Kind::Equality => *rule,
    }
}

// The doubled form of rule number `rule` of the book, or none past the last.
pub fn load_doubled<B: Book>(book: &B, rule: usize) -> Option<LoadedRule>
    ensures { MatchOption result (length (B.meaning book.now).rules ≤ rule) (DoubledOf (B.meaning book.now) rule) }
{
    Some(doubled_of(&load(book, rule)?))
}
