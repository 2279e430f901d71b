// The lines on which the rules of a book begin.
ghost use Rattle.std.specs.Prelude.{◌≡◌, ◌+◌, ◌^◌, ◌<◌, ◌≤◌, ◌++◌, IfOk, Some, OnOk};
ghost use Rattle.rules.specs.Loaded.{meant, Sized};
ghost use Rattle.rules.specs.Rules.{Rule};
ghost use Rattle.std.specs.List.{slice_get};
ghost use Rattle.summary.specs.Summary.{after, begins, begins_text, rule_lines};

use crate::putting::push_begin;
use rules::book::Book;
use rules::load::load;
use rules::loaded::LoadedRule;
use rules::term::Kind;
use std::alloc::AllocError;

// How many lines write a rule.
fn lines_of(it: &LoadedRule) -> usize
    requires { Sized it.now }
    ensures is { result ≡ rule_lines (meant it.now) }
    ensures few { result ≤ 72 }
{
    match it.kind {
        Kind::Functional => 4 + it.row_count + it.left_count + it.pair_count,
        Kind::Equality => 3 + it.row_count + it.pair_count,
    }
}

// How many lines write a rule of a book.
fn count_lines<B: Book>(book: &B, rule: usize) -> usize
    ensures is { (it : Rule) → slice_get (B.meaning book.now).rules rule ≡ Some it → result ≡ rule_lines it }
    ensures few { result ≤ 72 }
{
    load(book, rule).map_or(0, |it| lines_of(&it))
}

// Adds a line for each rule, of which the first begins on the line `first`, and gives the line after the last.
pub(crate) fn push_begins<B: Book>(
    out: &mut Vec<u8>,
    book: &B,
    what: &str,
    first: usize,
) -> Result<usize, AllocError>
    requires { first < 2 ^ 32 }
    ensures adds { OnOk result (out.new.items ≡ out.old.items ++ begins_text what.now 1 (begins first (B.meaning book.now).rules)) }
    ensures next { IfOk result (λ n. (n ≡ after first (B.meaning book.now).rules) × (n ≤ first + 73728)) }
{
    let mut line = first;
    for rule in 0..book.count() {
        push_begin(out, what, rule + 1, line)?;
        line += count_lines(book, rule);
    }
    Ok(line)
}
