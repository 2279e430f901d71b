// By which row of the pattern the left and right variables have all stood.
ghost use Rattle.std.specs.Prelude.{◌≡◌, ℕ, ◌<◌, ◌≤◌, true};
ghost use Rattle.rules.specs.Loaded.{loaded_pair};
ghost use Rattle.search.specs.Placings.{Groupable, Early, Bounded, left_term};

use rules::loaded::LoadedRule;
use rules::term::Term;

// Whether the term is a constant, or stands in one of the first rows: by the row and the column, which the contract names;
// of `any` over rows and terms the proof did not close.
#[tactic(auto, unfolding(crate::specs::Placings::Early))]
fn is_early(rule: &LoadedRule, term: Term, rows: usize) -> bool
    requires groupable { Groupable rule.now }
    requires rows { rows ≤ rule.now.row_count }
    ensures { result ≡ true → Early rule.now rows term }
{
    if let Term::Constant(_) = term {
        return true;
    }
    for row in 0..rows {
        for column in 0..rule.width {
            if rule.rows[row].terms[column] == term {
                return true;
            }
        }
    }
    false
}

// Two loops, this and the next, since of `all` over either list the proof did not close.
fn lefts_early(rule: &LoadedRule, rows: usize) -> bool
    requires groupable { Groupable rule.now }
    requires rows { rows ≤ rule.now.row_count }
    ensures { result ≡ true → (l : ℕ) → l < rule.now.left_count → Early rule.now rows (left_term rule.now l) }
{
    for v in rule.left() {
        if !is_early(rule, Term::Variable(*v), rows) {
            return false;
        }
    }
    true
}

fn rights_early(rule: &LoadedRule, rows: usize) -> bool
    requires groupable { Groupable rule.now }
    requires rows { rows ≤ rule.now.row_count }
    ensures { result ≡ true → (k : ℕ) → k < rule.now.pair_count → Early rule.now rows (loaded_pair rule.now k).0 }
{
    for pair in rule.pairs() {
        if !is_early(rule, pair.0, rows) {
            return false;
        }
    }
    true
}

pub(crate) fn bound_of(rule: &LoadedRule) -> usize
    requires { Groupable rule.now }
    ensures { Bounded rule.now result }
{
    for rows in 1..rule.row_count {
        if lefts_early(rule, rows) && rights_early(rule, rows) {
            return rows;
        }
    }
    rule.row_count
}
