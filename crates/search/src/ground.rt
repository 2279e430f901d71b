// What is read: a relation, by a rule and its plan.
ghost use Rattle.search.specs.Placings.{RowsFit};

use crate::plan::Plan;
use rules::loaded::LoadedRule;

#[derive(Drop)]
pub struct Ground<'a, R> {
    pub relation: &'a R,
    pub rule: &'a LoadedRule,
    pub plan: &'a Plan,
    ghost rows: { RowsFit rule.now plan.now },
}
