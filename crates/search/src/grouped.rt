// The search for a break of a functional rule among at most eight rows: placings of the one pattern, grouped by their left numbers.
ghost use Rattle.std.specs.Prelude.{◌≡◌, ℕ, ◌+◌, ◌<◌, ◌≤◌, true, length, replicate, MatchOption};
ghost use Rattle.search.specs.Progress.{GroupReady};
ghost use Rattle.search.specs.Placings.{choice_count, Picks, choices as ways, Landed, chosen};
ghost use Rattle.search.specs.Seens.{Covers, Fine, PartingAt, Tried, Went};

use crate::choices::Choices;
use crate::find::Scratch;
use crate::ground::Ground;
use crate::look::Grouping;
use crate::relation::Relation;
use crate::seen::{Parting, Placing};

// Whether one place for row `depth` is as good as any other: it is the last, and all that matters stands before it.
fn is_last(bound: usize, depth: usize, count: usize) -> bool
    requires { depth < count }
    ensures { result ≡ true → (bound ≤ depth) × (depth + 1 ≡ count) }
{
    bound <= depth && depth + 1 == count
}

// Places the rows of the pattern from `depth` on, row by row. The left and right variables stand in the first `bound` rows.
// Relation, look and choices stay three here and in the other walk: that the choices are the relation's rows names a choice
// for each row, which is no fact that a type may carry.
fn extend<R: Relation>(
    relation: &R,
    look: &Grouping,
    choices: &Choices,
    depth: usize,
    placing: Placing,
    scratch: &mut Scratch,
) -> Option<Parting>
    requires ready { GroupReady (R.meaning relation.now).rows look.now }
    requires depth { depth ≤ look.now.rule.row_count }
    requires picks { Picks (R.meaning relation.now).rows choices.now }
    requires fine { Fine (R.meaning relation.now).rows look.now.rule look.now.plan scratch.old.seen }
    requires room { scratch.old.seen.used + ways choices.now look.now.rule depth ≤ 4096 }
    requires lands { Landed (R.meaning relation.now).rows look.now.rule look.now.plan placing.rows depth }
    ensures { MatchOption result (Went (R.meaning relation.now).rows look.now.rule look.now.plan scratch.old.seen scratch.new.seen (ways choices.now look.now.rule depth) × Covers (R.meaning relation.now).rows look.now.rule look.now.plan scratch.new.seen depth placing.rows) (PartingAt (R.meaning relation.now).rows look.now.rule) }
{
    let rule = &look.rule;
    let ground = &Ground {
        relation,
        rule,
        plan: &look.plan,
    };
    let bound = look.bound;
    if depth == rule.row_count {
        return ground.settle(&placing, &mut scratch.seen);
    }
    if bound <= depth && ground.is_covered(&placing, &scratch.seen) {
        return None;
    }
    let count = choices.count();
    for m in 0..count {
        let mut next = placing;
        next.rows[depth] = choices.row(m) as u8;
        scratch.tests = scratch.tests.wrapping_add(1);
        if ground.lands(&next, depth) {
            if let Some(parting) = extend(relation, look, choices, depth + 1, next, scratch) {
                return Some(parting);
            }
            if is_last(bound, depth, rule.row_count) {
                return None;
            }
        }
    }
    None
}

// Sends the first row of the pattern to choice `m`, and the further ones wherever they fit: by the table, so apart from
// try_place of the other walk.
pub(crate) fn try_group<R: Relation>(
    relation: &R,
    look: &Grouping,
    choices: &Choices,
    m: usize,
    scratch: &mut Scratch,
) -> Option<Parting>
    requires ready { GroupReady (R.meaning relation.now).rows look.now }
    requires picks { Picks (R.meaning relation.now).rows choices.now }
    requires m { m < choice_count choices.now }
    requires fine { Fine (R.meaning relation.now).rows look.now.rule look.now.plan scratch.old.seen }
    requires room { scratch.old.seen.used + ways choices.now look.now.rule 1 ≤ 4096 }
    ensures { MatchOption result (Went (R.meaning relation.now).rows look.now.rule look.now.plan scratch.old.seen scratch.new.seen (ways choices.now look.now.rule 1) × Tried (R.meaning relation.now).rows look.now.rule look.now.plan scratch.new.seen 0 (replicate 4 0) (chosen choices.now m)) (PartingAt (R.meaning relation.now).rows look.now.rule) }
{
    let mut next = Placing { rows: [0; 4] };
    next.rows[0] = choices.row(m) as u8;
    scratch.tests = scratch.tests.wrapping_add(1);
    let ground = &Ground {
        relation,
        rule: &look.rule,
        plan: &look.plan,
    };
    if ground.lands(&next, 0) {
        return extend(relation, look, choices, 1, next, scratch);
    }
    None
}
