// The walk through the placings of a rule's pattern, for a pair that one of them splits.
ghost use Rattle.std.specs.Prelude.{◌≡◌, ℕ, ◌+◌, ◌-◌, ◌<◌, ◌≤◌, true, List, length, replicate, MatchOption};
ghost use Rattle.search.specs.Progress.{WalkReady};
ghost use Rattle.search.specs.Placings.{choice_count, Picks, Landed, From, With, chosen, Joins, SplitAt};

use crate::choices::Choices;
use crate::ground::Ground;
use crate::look::Walking;
use crate::relation::Relation;

// A pair, with the two numbers of its terms.
#[derive(Clone, Copy)]
pub struct Difference {
    pub pair: usize,
    pub one: u32,
    pub other: u32,
}

// A row for each row of the pattern.
#[derive(Clone, Copy)]
pub struct Places {
    pub rows: [usize; 8],
}

// A placing that splits a pair.
#[derive(Clone, Copy)]
pub struct Split {
    pub places: Places,
    pub difference: Difference,
}

// Places the rows of the pattern from `depth` on, row by row. The walk in groups goes the same way, but by its table, by
// which it leaves placings out: another step at each turn of the loop and at its end, so it has a function of its own.
fn walk_from<R: Relation>(
    relation: &R,
    look: &Walking,
    choices: &Choices,
    depth: usize,
    places: Places,
    tests: &mut u64,
) -> Option<Split>
    requires ready { WalkReady (R.meaning relation.now).rows look.now }
    requires depth { depth ≤ look.now.rule.row_count }
    requires picks { Picks (R.meaning relation.now).rows choices.now }
    requires lands { Landed (R.meaning relation.now).rows look.now.rule look.now.plan places.rows depth }
    ensures { MatchOption result (From (R.meaning relation.now).rows look.now.rule depth places.rows (Joins look.now.rule)) (λ s. SplitAt (R.meaning relation.now).rows look.now.rule s.places.rows s.difference.pair s.difference.one s.difference.other) }
{
    let rule = &look.rule;
    let ground = &Ground {
        relation,
        rule,
        plan: &look.plan,
    };
    if depth == rule.row_count {
        let difference = ground.differing(&places, &places)?;
        return Some(Split { places, difference });
    }
    let count = choices.count();
    for m in 0..count {
        let mut next = places;
        next.rows[depth] = choices.row(m);
        *tests = tests.wrapping_add(1);
        if ground.lands(&next, depth) {
            if let Some(split) = walk_from(relation, look, choices, depth + 1, next, tests) {
                return Some(split);
            }
        }
    }
    None
}

// Sends the first row of the pattern to choice `m`, and the further ones wherever they fit.
pub(crate) fn try_place<R: Relation>(
    relation: &R,
    look: &Walking,
    choices: &Choices,
    m: usize,
    tests: &mut u64,
) -> Option<Split>
    requires ready { WalkReady (R.meaning relation.now).rows look.now }
    requires picks { Picks (R.meaning relation.now).rows choices.now }
    requires m { m < choice_count choices.now }
    ensures { MatchOption result (With (R.meaning relation.now).rows look.now.rule 0 (replicate 8 0) (chosen choices.now m) (Joins look.now.rule)) (λ s. SplitAt (R.meaning relation.now).rows look.now.rule s.places.rows s.difference.pair s.difference.one s.difference.other) }
{
    let mut next = Places { rows: [0; 8] };
    next.rows[0] = choices.row(m);
    *tests = tests.wrapping_add(1);
    let ground = &Ground {
        relation,
        rule: &look.rule,
        plan: &look.plan,
    };
    if ground.lands(&next, 0) {
        return walk_from(relation, look, choices, 1, next, tests);
    }
    None
}
