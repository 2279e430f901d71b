// A look at one rule: made ready, and then taken choice by choice for the first row of the pattern.
ghost use Rattle.std.specs.Prelude.{◌≡◌, ℕ, ◌+◌, ◌<◌, ◌≤◌, length, Some, None, MatchOption};
ghost use Rattle.rules.specs.declared.term.Kind.TheVariants.{Functional, Equality};
ghost use Rattle.rules.specs.Rules.{Keeps};
ghost use Rattle.rules.specs.Loaded.{meant, OfBook};
ghost use Rattle.search.specs.declared.choices.Choices.{Choices as Chooses};
ghost use Rattle.search.specs.Placings.{choice_count, Picks, Sound};
ghost use Rattle.search.specs.Progress.{GroupTried, Links, Progress, WalkReady, WalkTried, look_number, look_rule};
ghost use Rattle.search.specs.Spots.{Looked, LookedAt};

use crate::bounds::bound_of;
use crate::choices::Choices;
use crate::find::Scratch;
use crate::ground::Ground;
use crate::grouped::try_group;
use crate::order::{in_order, put_back};
use crate::plan::{Plan, plan_of};
use crate::relation::Relation;
use crate::seen::{Parting, Seen, clear};
use crate::spot::Spot;
use crate::spots::{joint_spot, spot_of};
use crate::walk::try_place;
use rules::book::Book;
use rules::doubling::load_doubled;
use rules::load::load;
use rules::loaded::LoadedRule;
use rules::term::Kind;

// What is searched, for a break of rule number `number`, in groups: the rule with its rows in a better order, where row i
// of the rule has become row `places[i]`.
#[derive(Clone, Copy)]
pub struct Grouping {
    pub number: usize,
    pub own: LoadedRule,
    pub rule: LoadedRule,
    pub places: [usize; 4],
    pub plan: Plan,
    pub bound: usize,
}

// What is searched one placing at a time: an equality rule or a doubled form, as it is.
#[derive(Clone, Copy)]
pub struct Walking {
    pub number: usize,
    pub rule: LoadedRule,
    pub plan: Plan,
}

#[derive(Clone, Copy)]
pub enum Look {
    Groups(Grouping),
    Walk(Walking),
}

// None if a quick look shows that the rule is kept.
fn begin_groups<R: Relation>(
    relation: &R,
    own: &LoadedRule,
    number: usize,
    seen: &mut Seen,
) -> Option<Look>
    requires few { length (R.meaning relation.now).rows ≤ 8 }
    requires of { OfBook own.now }
    requires kind { own.now.kind ≡ Functional }
    ensures { MatchOption result (Keeps (R.meaning relation.now).rows (meant own.now)) (λ look. (look_number look ≡ number) × (look_rule look ≡ own.now) × ((d : Chooses) → Progress (R.meaning relation.now).rows d seen.new look 0)) }
{
    if relation.width() != own.width {
        return None;
    }
    let order = in_order(own);
    let places = order.places;
    let rule = order.rule;
    let plan = plan_of(&rule);
    let ground = &Ground {
        relation,
        rule: &rule,
        plan: &plan,
    };
    if ground.is_quiet() {
        return None;
    }
    clear(seen);
    let bound = bound_of(&rule);
    Some(Look::Groups(Grouping {
        number,
        own: *own,
        rule,
        places,
        plan,
        bound,
    }))
}

fn begin_walk<R: Relation>(relation: &R, form: &LoadedRule, number: usize) -> Option<Walking>
    requires sound { Sound form.now }
    requires kind { form.now.kind ≡ Equality }
    ensures { MatchOption result (Keeps (R.meaning relation.now).rows (meant form.now)) (λ look. (look.number ≡ number) × (look.rule ≡ form.now) × WalkReady (R.meaning relation.now).rows look) }
{
    if relation.width() != form.width {
        return None;
    }
    Some(Walking {
        number,
        rule: *form,
        plan: plan_of(form),
    })
}

// Makes a look at the doubled form ready.
pub(crate) fn begin_doubled<R: Relation, B: Book>(
    relation: &R,
    book: &B,
    number: usize,
) -> Option<Walking>
    ensures { MatchOption result (LookedAt (R.Relation.meaning relation.now).rows (B.Book.meaning book.now).rules number None) (λ look. Links (R.Relation.meaning relation.now).rows (B.Book.meaning book.now).rules (meant look.rule) look.number number × WalkReady (R.Relation.meaning relation.now).rows look) }
{
    begin_walk(relation, &load_doubled(book, number)?, number)
}

// Makes a look at a rule ready; none if the rule is kept at a glance.
pub(crate) fn begin<R: Relation, B: Book>(
    relation: &R,
    book: &B,
    number: usize,
    seen: &mut Seen,
) -> Option<Look>
    ensures { MatchOption result (LookedAt (R.Relation.meaning relation.now).rows (B.Book.meaning book.now).rules number None) (λ look. Links (R.Relation.meaning relation.now).rows (B.Book.meaning book.now).rules (meant (look_rule look)) (look_number look) number × ((d : Chooses) → Progress (R.Relation.meaning relation.now).rows d seen.new look 0)) }
{
    let rule = load(book, number)?;
    match rule.kind {
        Kind::Equality => Some(Look::Walk(begin_walk(relation, &rule, number)?)),
        Kind::Functional => {
            if relation.rows() <= 8 {
                begin_groups(relation, &rule, number, seen)
            } else {
                Some(Look::Walk(begin_doubled(relation, book, number)?))
            }
        }
    }
}

fn from_group<R: Relation>(
    relation: &R,
    look: &Grouping,
    choices: &Choices,
    m: usize,
    scratch: &mut Scratch,
) -> Option<Spot>
    requires picks { Picks (R.meaning relation.now).rows choices.now }
    requires m { m < choice_count choices.now }
    requires tried { GroupTried (R.meaning relation.now).rows choices.now scratch.old.seen look.now m }
    ensures { MatchOption result (GroupTried (R.meaning relation.now).rows choices.now scratch.new.seen look.now (m + 1)) (λ s. Looked (R.meaning relation.now).rows (meant look.now.own) look.now.number (Some s)) }
{
    let parting = try_group(relation, look, choices, m, scratch)?;
    let back = Parting {
        first: put_back(&parting.first, &look.places, look.own.row_count),
        second: put_back(&parting.second, &look.places, look.own.row_count),
        difference: parting.difference,
    };
    Some(joint_spot(look.number, &back, look.own.row_count))
}

pub(crate) fn from_place<R: Relation>(
    relation: &R,
    look: &Walking,
    choices: &Choices,
    m: usize,
    tests: &mut u64,
) -> Option<Spot>
    requires picks { Picks (R.meaning relation.now).rows choices.now }
    requires m { m < choice_count choices.now }
    requires tried { WalkTried (R.meaning relation.now).rows choices.now look.now m }
    ensures { MatchOption result (WalkTried (R.meaning relation.now).rows choices.now look.now (m + 1)) (λ s. Looked (R.meaning relation.now).rows (meant look.now.rule) look.now.number (Some s)) }
{
    let split = try_place(relation, look, choices, m, tests)?;
    Some(spot_of(look.number, &split, look.rule.row_count))
}

// Sends the first row of the pattern to choice `m`, and the further ones wherever they fit.
pub(crate) fn look_from<R: Relation>(
    relation: &R,
    look: &Look,
    choices: &Choices,
    m: usize,
    scratch: &mut Scratch,
) -> Option<Spot>
    requires picks { Picks (R.meaning relation.now).rows choices.now }
    requires m { m < choice_count choices.now }
    requires progress { Progress (R.meaning relation.now).rows choices.now scratch.old.seen look.now m }
    ensures { MatchOption result (Progress (R.meaning relation.now).rows choices.now scratch.new.seen look.now (m + 1)) (λ s. Looked (R.meaning relation.now).rows (meant (look_rule look.now)) (look_number look.now) (Some s)) }
{
    match look {
        Look::Groups(grouping) => from_group(relation, grouping, choices, m, scratch),
        Look::Walk(walking) => from_place(relation, walking, choices, m, &mut scratch.tests),
    }
}
