// The quick look: whether no right variable can have two numbers, by a look at its column alone.
ghost use Rattle.std.specs.Prelude.{◌≡◌, ℕ, ◌<◌, ◌≤◌, true, length};
ghost use Rattle.rules.specs.Loaded.{loaded_term};
ghost use Rattle.search.specs.Placings.{Sound, OneValue, Single, Unlike, AllAgree};

use crate::cell::cell;
use crate::ground::Ground;
use crate::plan::Slot;
use crate::relation::Relation;
use rules::term::Term;

impl<R: Relation> Ground<'_, R> {
    // Whether a constant of row `i` of the pattern is missed by the row.
    fn unlike(&self, i: usize, row: usize) -> bool
        requires sound { Sound self.now.rule.now }
        requires i { i < self.now.rule.now.row_count }
        ensures { result ≡ true → Unlike (R.meaning self.now.relation.now).rows self.now.rule.now i row }
    {
        for (column, term) in self.rule.rows[i].terms[..self.rule.width]
            .iter()
            .enumerate()
        {
            if let Term::Constant(c) = term
                && *c != cell(self.relation, row, column)
            {
                return true;
            }
        }
        false
    }

    // Whether the column shows one number at most, in the rows that row `i` of the pattern may go to.
    fn one_value(&self, i: usize, j: usize) -> bool
        requires sound { Sound self.now.rule.now }
        requires i { i < self.now.rule.now.row_count }
        requires j { j < self.now.rule.now.width }
        ensures { result ≡ true → OneValue (R.meaning self.now.relation.now).rows self.now.rule.now i (loaded_term self.now.rule.now i j) }
    {
        let mut found: Option<u32> = None;
        for row in 0..self.relation.rows() {
            if !self.unlike(i, row) {
                let number = cell(self.relation, row, j);
                if found.unwrap_or(number) != number {
                    return false;
                }
                found = Some(number);
            }
        }
        true
    }

    // Whether the term stands at this place, and its column shows one number at most.
    fn is_single_at(&self, slot: Slot, term: Term) -> bool
        requires { Sound self.now.rule.now }
        ensures { result ≡ true → Single (R.meaning self.now.relation.now).rows self.now.rule.now term }
    {
        let row = slot.row as usize;
        let column = slot.column as usize;
        row < self.rule.row_count
            && column < self.rule.width
            && self.rule.rows[row].terms[column] == term
            && self.one_value(row, column)
    }

    // Whether the term has one number at most.
    fn is_single(&self, term: Term) -> bool
        requires { Sound self.now.rule.now }
        ensures { result ≡ true → Single (R.meaning self.now.relation.now).rows self.now.rule.now term }
    {
        match term {
            Term::Constant(_) => true,
            // No `is_some_and`: of its closure over the ground the proof here would learn nothing.
            Term::Variable(v) => match self.plan.origin.get(v as usize) {
                Some(slot) => self.is_single_at(*slot, term),
                None => false,
            },
        }
    }

    pub(crate) fn is_quiet(&self) -> bool
        requires { Sound self.now.rule.now }
        ensures { result ≡ true → AllAgree (R.meaning self.now.relation.now).rows self.now.rule.now }
    {
        self.rule.pairs().iter().all(|pair| self.is_single(pair.0))
    }
}
