// Which rows of a relation are tried: a row equal to an earlier one is left out.
ghost use Rattle.std.specs.Prelude.{◌≡◌, ℕ, ◌<◌, ◌≤◌, true, [], length, slice_index, slice_index_or};
ghost use Rattle.search.specs.Placings.{choice_count, chosen, Distinct, Picks, SameAsOne, Short};

use crate::cell::cell;
use crate::relation::Relation;

// All of so many rows, or the rows picked of at most eight: so many of these numbers, in an array, since the search runs
// with fixed memory and no heap.
#[derive(Clone, Copy)]
pub enum Choices {
    All(usize),
    Picked([usize; 8], usize),
}

// Whether the two rows are equal: entry by entry, as a relation tells them.
fn same_row<R: Relation>(relation: &R, a: usize, b: usize) -> bool
    requires a { a < length (R.meaning relation.now).rows }
    requires b { b < length (R.meaning relation.now).rows }
    ensures { result ≡ true → slice_index_or (R.meaning relation.now).rows a [] ≡ slice_index_or (R.meaning relation.now).rows b [] }
{
    let width = relation.width();
    for column in 0..width {
        if cell(relation, a, column) != cell(relation, b, column) {
            return false;
        }
    }
    true
}

// Whether a row is equal to one of those picked so far.
fn is_picked<R: Relation>(relation: &R, picked: &[usize], row: usize) -> bool
    requires row { row < length (R.meaning relation.now).rows }
    requires within { (m : ℕ) → m < length picked.now → slice_index picked.now m < length (R.meaning relation.now).rows }
    ensures { result ≡ true → SameAsOne (R.meaning relation.now).rows picked.now (length picked.now) row }
{
    for other in picked {
        if same_row(relation, *other, row) {
            return true;
        }
    }
    false
}

// In an array with the count beside it, since nothing is allocated here.
fn distinct_rows<R: Relation>(relation: &R) -> Choices
    requires { length (R.meaning relation.now).rows ≤ 8 }
    ensures { Picks (R.meaning relation.now).rows result }
{
    let mut rows: [usize; 8] = [0; 8];
    let mut count = 0;
    for row in 0..relation.rows() {
        if !is_picked(relation, &rows[..count], row) {
            rows[count] = row;
            count += 1;
        }
    }
    Choices::Picked(rows, count)
}

pub(crate) fn choices_of<R: Relation>(relation: &R) -> Choices
    ensures { Picks (R.meaning relation.now).rows result }
{
    let count = relation.rows();
    if count > 8 {
        return Choices::All(count);
    }
    distinct_rows(relation)
}

impl Choices {
    pub(crate) fn count(&self) -> usize
        ensures { result ≡ choice_count self.now }
    {
        match self {
            Choices::All(count) => *count,
            Choices::Picked(_, count) => *count,
        }
    }

    // The number of the m-th of them.
    pub(crate) fn row(&self, m: usize) -> usize
        requires short { Short self.now }
        requires m { m < choice_count self.now }
        ensures { result ≡ chosen self.now m }
    {
        match self {
            Choices::All(_) => m,
            Choices::Picked(rows, _) => rows[m],
        }
    }
}
