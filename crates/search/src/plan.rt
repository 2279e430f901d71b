// How the search goes about a rule's pattern.
ghost use Rattle.std.specs.Prelude.{◌≡◌, ℕ, ◌<◌, ◌≤◌, true, length, take};
ghost use Rattle.rules.specs.Loaded.{Symbolic};
ghost use Rattle.search.specs.Placings.{Sound, FirstAt, Leaves, Origins, RowsFit, Planned};

use rules::loaded::LoadedRule;
use rules::term::Term;

// A place in a pattern. In bytes, as the columns below are: a plan is copied for each look, and looks are many.
#[derive(Clone, Copy, PartialEq, Eq)]
pub struct Slot {
    pub row: u8,
    pub column: u8,
}

// The columns of a row of a pattern that have to be held against a row of the relation: so many, in an array, since the
// search runs with fixed memory and no heap.
#[derive(Clone, Copy)]
pub struct Tests {
    pub columns: [u8; 8],
    pub count: usize,
}

impl Tests {
    pub(crate) fn columns(&self) -> &[u8]
        requires { self.now.count ≤ 8 }
        ensures front { result.now ≡ take self.now.count self.now.columns }
        ensures long { length result.now ≡ self.now.count }
    {
        &self.columns[..self.count]
    }
}

// Where each symbol of a pattern stands first, and what is to be tested of each row. What is known of a rule and its plan is
// asked of each function: a fact of a type has to be a proposition, and where a term stands, or which column tests it, is a choice.
#[derive(Clone, Copy)]
pub struct Plan {
    pub origin: [Slot; 64],
    pub tests: [Tests; 8],
}

// Where each symbol of the pattern stands first: from the last row up, so that the first row has the last word. By row and
// column, since they are what is noted.
fn origins_of(rule: &LoadedRule) -> Plan
    requires { Sound rule.now }
    ensures rows { RowsFit rule.now result }
    ensures origins { Origins rule.now result }
{
    let mut plan = Plan {
        origin: [Slot { row: 0, column: 0 }; 64],
        tests: [Tests {
            columns: [0; 8],
            count: 0,
        }; 8],
    };
    for m in 0..rule.row_count {
        let row = rule.row_count - 1 - m;
        for column in 0..rule.width {
            if let Term::Variable(v) = rule.rows[row].terms[column] {
                plan.origin[v as usize] = Slot {
                    row: row as u8,
                    column: column as u8,
                };
            }
        }
    }
    plan
}

// Whether the term is a symbol that stands first in this row and column.
fn is_own(plan: &Plan, term: Term, row: usize, column: usize) -> bool
    requires { Symbolic term }
    ensures { result ≡ true → FirstAt plan.now term row column }
{
    match term {
        Term::Constant(_) => false,
        Term::Variable(v) => {
            let slot = plan.origin[v as usize];
            slot.row as usize == row && slot.column as usize == column
        }
    }
}

// What is to be tested of a row of the pattern.
fn tests_of(rule: &LoadedRule, plan: &Plan, row: usize) -> Tests
    requires sound { Sound rule.now }
    requires row { row < rule.now.row_count }
    ensures { Leaves rule.now plan.now row result rule.now.width }
{
    let mut tests = Tests {
        columns: [0; 8],
        count: 0,
    };
    for (column, term) in rule.rows[row].terms[..rule.width].iter().enumerate() {
        if !is_own(plan, *term, row, column) {
            let place = tests.count;
            tests.columns[place] = column as u8;
            tests.count = place + 1;
        }
    }
    tests
}

// Row by row, by the number, which tests_of wants too.
pub(crate) fn plan_of(rule: &LoadedRule) -> Plan
    requires { Sound rule.now }
    ensures { Planned rule.now result }
{
    let origins = origins_of(rule);
    let mut plan = origins;
    for row in 0..rule.row_count {
        plan.tests[row] = tests_of(rule, &origins, row);
    }
    plan
}
