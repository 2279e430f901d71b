// What a placing makes of the terms of a rule.
ghost use Rattle.std.specs.Prelude.{◌≡◌, ℕ, ◌<◌, ◌≤◌, true, length, MatchOption};
ghost use Rattle.rules.specs.Rules.{at};
ghost use Rattle.rules.specs.Loaded.{Symbolic};
ghost use Rattle.search.specs.Placings.{filled, Fitting, Lands, Parts, place, Planned, SameSides, Sound};

use crate::cell::cell;
use crate::ground::Ground;
use crate::placing::Placement;
use crate::relation::Relation;
use crate::walk::Difference;
use rules::term::Term;

impl<R: Relation> Ground<'_, R> {
    // The number that the placing gives the term.
    pub(crate) fn number_of<P: Placement>(&self, placing: &P, term: Term) -> u32
        requires term { Symbolic term }
        requires room { self.now.rule.now.row_count ≤ length (P.Placement.places placing.now) }
        ensures { result ≡ at (filled (R.Relation.meaning self.now.relation.now).rows self.now.plan.now (P.Placement.places placing.now)) term }
    {
        match term {
            Term::Constant(c) => c,
            Term::Variable(v) => {
                let slot = self.plan.origin[v as usize];
                cell(
                    self.relation,
                    placing.row(slot.row as usize),
                    slot.column as usize,
                )
            }
        }
    }

    // Whether the placing sends row `depth` of the pattern to its place. No step is taken as often: the hint saves the calls.
    #[inline(always)]
    pub(crate) fn lands<P: Placement>(&self, placing: &P, depth: usize) -> bool
        requires sound { Sound self.now.rule.now }
        requires plan { Planned self.now.rule.now self.now.plan.now }
        requires room { self.now.rule.now.row_count ≤ length (P.Placement.places placing.now) }
        requires depth { depth < self.now.rule.now.row_count }
        requires within { place (P.Placement.places placing.now) depth < length (R.Relation.meaning self.now.relation.now).rows }
        requires fitting { Fitting (R.Relation.meaning self.now.relation.now).rows self.now.rule.now }
        ensures yes { result ≡ true → Lands (R.Relation.meaning self.now.relation.now).rows self.now.rule.now (filled (R.Relation.meaning self.now.relation.now).rows self.now.plan.now (P.Placement.places placing.now)) depth (place (P.Placement.places placing.now) depth) }
        ensures no { Lands (R.Relation.meaning self.now.relation.now).rows self.now.rule.now (filled (R.Relation.meaning self.now.relation.now).rows self.now.plan.now (P.Placement.places placing.now)) depth (place (P.Placement.places placing.now) depth) → result ≡ true }
    {
        let row = placing.row(depth);
        for column in self.plan.tests[depth].columns() {
            let column = *column as usize;
            let term = self.rule.rows[depth].terms[column];
            if self.number_of(placing, term) != cell(self.relation, row, column) {
                return false;
            }
        }
        true
    }

    // A pair whose sides get two numbers: the first side by the first placing, the second by the second.
    pub(crate) fn differing<P: Placement>(&self, a: &P, b: &P) -> Option<Difference>
        requires sound { Sound self.now.rule.now }
        requires first { self.now.rule.now.row_count ≤ length (P.Placement.places a.now) }
        requires second { self.now.rule.now.row_count ≤ length (P.Placement.places b.now) }
        ensures { MatchOption result (SameSides self.now.rule.now (filled (R.Relation.meaning self.now.relation.now).rows self.now.plan.now (P.Placement.places a.now)) (filled (R.Relation.meaning self.now.relation.now).rows self.now.plan.now (P.Placement.places b.now))) (λ d. Parts self.now.rule.now (filled (R.Relation.meaning self.now.relation.now).rows self.now.plan.now (P.Placement.places a.now)) (filled (R.Relation.meaning self.now.relation.now).rows self.now.plan.now (P.Placement.places b.now)) d.pair d.one d.other) }
    {
        for (pair, sides) in self.rule.pairs().iter().enumerate() {
            let one = self.number_of(a, sides.0);
            let other = self.number_of(b, sides.1);
            if one != other {
                return Some(Difference { pair, one, other });
            }
        }
        None
    }
}
