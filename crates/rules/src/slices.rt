// What counts of a loaded rule, as slices. A count past the end of its array gives the whole array.
ghost use Rattle.std.specs.Prelude.{◌≡◌, ◌≤◌, take};
ghost use Rattle.rules.specs.Loaded.{meant};

use crate::loaded::{LoadedRule, TermRow};
use crate::term::Term;

impl LoadedRule {
    pub fn rows(&self) -> &[TermRow]
        ensures { result.now ≡ take self.now.row_count self.now.rows }
    {
        &self.rows[..self.row_count.min(8)]
    }

    pub fn left(&self) -> &[u8]
        ensures front { result.now ≡ take self.now.left_count self.now.left }
        ensures meant { self.now.left_count ≤ 32 → result.now ≡ (meant self.now).left }
    {
        &self.left[..self.left_count.min(32)]
    }

    pub fn pairs(&self) -> &[(Term, Term)]
        ensures front { result.now ≡ take self.now.pair_count self.now.pairs }
        ensures meant { self.now.pair_count ≤ 32 → result.now ≡ (meant self.now).pairs }
    {
        &self.pairs[..self.pair_count.min(32)]
    }
}
