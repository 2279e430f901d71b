ghost use Rattle.std.specs.Prelude.{◌≡◌, ℕ, ◌<◌, ◌≤◌, List, Option, ◌++◌, length, IfOk, Some, string_bytes, OnOk};
ghost use Rattle.listing.specs.Listing.{left_text, lists_text, right_text, row_at, row_text, rule_here, rule_text, rules_text, pair_text, term_text};
ghost use Rattle.rules.specs.declared.term.Kind.TheVariants.{Functional};
ghost use Rattle.rules.specs.declared.term.Term.{Term};
ghost use Rattle.std.specs.List.{flat_map, slice_get};

use crate::words::{Entry, PairLine};
use rules::book::Book;
use rules::term::{Kind, Term};
use std::alloc::{AllocError, Global};
use std::fmt;

// Writes what a question answers about the first places, one after another.
fn push_each<T: fmt::Display + Drop, Q: Fn(usize) -> Option<T>>(
    out: &mut String,
    most: usize,
    ask: Q,
) -> Result<(), AllocError>
    requires { Q.IsAlwaysCallable ask }
    ensures { OnOk result ((text : T → List ℕ) (xs : List T) → ((x : T) → T.output x ≡ Some (text x)) → ((k : ℕ) (o : Option T) → Q.post ask k o → o ≡ slice_get xs k) → length xs ≤ most → string_bytes out.new ≡ string_bytes out.old ++ flat_map text xs) }
{
    for k in 0..most {
        if let Some(item) = ask(k) {
            write!(out, "{item}")?;
        }
    }
    Ok(())
}

// A rule of a book.
#[derive(Drop)]
struct Listed<'a, B: Book> {
    book: &'a B,
    rule: usize,
    ghost there: { rule < length (B.meaning book.now).rules },
}

impl<'a, B: Book> Listed<'a, B> {
    // Writes the terms of a row.
    fn push_terms(&self, out: &mut String, row: usize) -> Result<(), AllocError>
        ensures { OnOk result ((terms : List Term) → row_at (rule_here (B.meaning self.now.book.now).rules self.now.rule) row ≡ Some terms → string_bytes out.new ≡ string_bytes out.old ++ flat_map term_text terms) }
    {
        push_each(out, 8, |column| {
            self.book.term(self.rule, row, column).map(Entry)
        })
    }

    // Writes the line of each row.
    fn push_rows(&self, out: &mut String) -> Result<(), AllocError>
        ensures { OnOk result (string_bytes out.new ≡ string_bytes out.old ++ flat_map row_text (rule_here (B.meaning self.now.book.now).rules self.now.rule).pattern) }
    {
        let rows = self.book.rows(self.rule).unwrap();
        for row in 0..rows {
            out.push_str("  row")?;
            self.push_terms(out, row)?;
            out.push_str("\n")?;
        }
        Ok(())
    }

    // Writes the left variables.
    fn push_lefts(&self, out: &mut String) -> Result<(), AllocError>
        ensures { OnOk result (string_bytes out.new ≡ string_bytes out.old ++ flat_map left_text (rule_here (B.meaning self.now.book.now).rules self.now.rule).left) }
    {
        push_each(out, 32, |k| {
            let left = self.book.left(self.rule, k);
            left.map(|v| Entry(Term::Variable(v)))
        })
    }

    // Writes the right variables: a right variable is the first side of its pair.
    fn push_rights(&self, out: &mut String) -> Result<(), AllocError>
        ensures { OnOk result (string_bytes out.new ≡ string_bytes out.old ++ flat_map right_text (rule_here (B.meaning self.now.book.now).rules self.now.rule).pairs) }
    {
        push_each(out, 32, |k| {
            let pair = self.book.pair(self.rule, k);
            pair.map(|(one, _)| Entry(one))
        })
    }

    // Writes the lines of the pairs.
    fn push_pairs(&self, out: &mut String) -> Result<(), AllocError>
        ensures { OnOk result (string_bytes out.new ≡ string_bytes out.old ++ flat_map pair_text (rule_here (B.meaning self.now.book.now).rules self.now.rule).pairs) }
    {
        push_each(out, 32, |k| {
            let pair = self.book.pair(self.rule, k);
            pair.map(|(one, other)| PairLine(one, other))
        })
    }

    // Writes the lists of a functional rule.
    fn push_sides(&self, out: &mut String) -> Result<(), AllocError>
        ensures { OnOk result (string_bytes out.new ≡ string_bytes out.old ++ lists_text Functional (rule_here (B.meaning self.now.book.now).rules self.now.rule)) }
    {
        out.push_str("  left")?;
        self.push_lefts(out)?;
        out.push_str("\n  right")?;
        self.push_rights(out)?;
        out.push_str("\n")
    }

    // Writes what follows the rows of a rule of this kind.
    fn push_lists(&self, out: &mut String, kind: Kind) -> Result<(), AllocError>
        ensures { OnOk result (string_bytes out.new ≡ string_bytes out.old ++ lists_text kind (rule_here (B.meaning self.now.book.now).rules self.now.rule)) }
    {
        match kind {
            Kind::Functional => self.push_sides(out),
            Kind::Equality => self.push_pairs(out),
        }
    }

    // Writes the rule.
    fn push(&self, out: &mut String) -> Result<(), AllocError>
        ensures { OnOk result (string_bytes out.new ≡ string_bytes out.old ++ rule_text self.now.rule (rule_here (B.meaning self.now.book.now).rules self.now.rule)) }
    {
        let rule = self.rule;
        let kind = self.book.kind(rule).unwrap();
        write!(out, "rule {rule}: {kind}\n")?;
        self.push_rows(out)?;
        self.push_lists(out, kind)
    }
}

// A book in words, rule by rule.
pub fn list_book<B: Book>(heap: Global, book: &B) -> Result<String, AllocError>
    ensures { IfOk result (λ s. string_bytes s ≡ rules_text 0 (B.meaning book.now).rules) }
{
    let mut out = String::new(heap);
    for rule in 0..book.count() {
        Listed { book, rule }.push(&mut out)?;
    }
    Ok(out)
}
