// The pattern's rows in a better order: those with left and right variables first. The order is a hint: it is checked
// before it is used, and any other would do.
ghost use Rattle.std.specs.Prelude.{◌≡◌, ℕ, ◌<◌, ◌≤◌, true, length, slice_index};
ghost use Rattle.search.specs.Placings.{arranged, Groupable, SameRow, Somewhere, Rearranges, PutsBack};

use crate::seen::Placing;
use rules::loaded::{LoadedRule, TermRow};
use rules::term::Term;

// Rows, and where each row of the rule stands among them.
#[derive(Clone, Copy)]
pub struct Arrangement {
    pub rows: [TermRow; 8],
    pub places: [usize; 4],
}

// Whether the term is a left or a right variable.
fn matters(rule: &LoadedRule, term: Term) -> bool {
    let is_left = match term {
        Term::Constant(_) => false,
        Term::Variable(v) => rule.left().contains(&v),
    };
    is_left || rule.pairs().iter().any(|pair| pair.0 == term)
}

fn is_relevant(rule: &LoadedRule, row: &TermRow) -> bool
    requires { rule.now.width ≤ 8 }
{
    row.terms[..rule.width]
        .iter()
        .any(|term| matters(rule, *term))
}

fn arrangement_of(rule: &LoadedRule) -> Arrangement
    requires { Groupable rule.now }
{
    let mut rows = rule.rows;
    let mut places: [usize; 4] = [0, 1, 2, 3];
    let mut n: usize = 0;
    for relevant in [true, false] {
        for (row, place) in rule.rows().iter().zip(&mut places) {
            if is_relevant(rule, row) == relevant && n < 4 {
                rows[n] = *row;
                *place = n;
                n += 1;
            }
        }
    }
    Arrangement { rows, places }
}

// Column by column, since what `==` says of two slices of terms is no fact about each place.
fn is_same(rule: &LoadedRule, i: usize, other: &LoadedRule, j: usize) -> bool
    requires groupable { Groupable rule.now }
    requires i { i < 4 }
    requires j { j < 4 }
    ensures { result ≡ true → SameRow rule.now i other.now j }
{
    for column in 0..rule.width {
        if other.rows[j].terms[column] != rule.rows[i].terms[column] {
            return false;
        }
    }
    true
}

fn is_somewhere(rule: &LoadedRule, other: &LoadedRule, j: usize) -> bool
    requires groupable { Groupable rule.now }
    requires j { j < 4 }
    ensures { result ≡ true → Somewhere rule.now other.now j }
{
    (0..rule.row_count).any(|i| is_same(rule, i, other, j))
}

// Row by row, by the number, by which all three are asked.
fn is_arranged(rule: &LoadedRule, other: &LoadedRule, places: &[usize; 4]) -> bool
    requires { Groupable rule.now }
    ensures { result ≡ true → Rearranges rule.now other.now places.now }
{
    for i in 0..rule.row_count {
        if places[i] >= rule.row_count {
            return false;
        }
        if !is_same(rule, i, other, places[i]) {
            return false;
        }
        if !is_somewhere(rule, other, i) {
            return false;
        }
    }
    true
}

// The placing of the rule's own rows: row by row, since each is read at the place that another list gives.
pub(crate) fn put_back(placing: &Placing, places: &[usize; 4], count: usize) -> Placing
    requires count { count ≤ 4 }
    requires places { (i : ℕ) → i < count → slice_index places.now i < 4 }
    ensures { PutsBack places.now count placing.now.rows result.rows }
{
    let mut rows: [u8; 4] = [0; 4];
    for i in 0..count {
        rows[i] = placing.rows[places[i]];
    }
    Placing { rows }
}

// The rule with its rows in that order, and where each has gone.
#[derive(Clone, Copy)]
pub struct Ordered {
    pub rule: LoadedRule,
    pub places: [usize; 4],
}

pub(crate) fn in_order(rule: &LoadedRule) -> Ordered
    requires { Groupable rule.now }
    ensures same { result.rule ≡ arranged rule.now result.rule.rows }
    ensures order { Rearranges rule.now result.rule result.places }
{
    if rule.row_count > 1 {
        let arrangement = arrangement_of(rule);
        let rows = arrangement.rows;
        let places = arrangement.places;
        let mut other = *rule;
        other.rows = rows;
        if is_arranged(rule, &other, &places) {
            return Ordered {
                rule: other,
                places,
            };
        }
    }
    Ordered {
        rule: *rule,
        places: [0, 1, 2, 3],
    }
}
