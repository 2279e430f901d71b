// A rule as plain data: plain types with no clause, so that definitions in specs/ may name them.
use crate::term::{Kind, Term};

// A pattern's row, of which the first `width` terms count.
#[derive(Clone, Copy)]
pub struct TermRow {
    pub terms: [Term; 8],
}

// A rule, read out of its book, or the doubled form of one. A rule has at most four rows and the variables below 32, its
// doubled form at most eight rows and the variables below 64. The arrays have counts beside them, since a trial's record
// holds a rule by value: one plain Copy record, with no heap. `left`, `pairs` and `rows` give what counts as slices.
#[derive(Clone, Copy)]
pub struct LoadedRule {
    pub kind: Kind,
    pub width: usize,
    pub rows: [TermRow; 8],
    pub row_count: usize,
    pub left: [u8; 32],
    pub left_count: usize,
    pub pairs: [(Term, Term); 32],
    pub pair_count: usize,
}
