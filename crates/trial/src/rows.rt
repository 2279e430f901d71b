// The current rows of a trial: the starting rows as shown.
ghost use Rattle.std.specs.Prelude.{◌≡◌};
ghost use Rattle.rules.specs.Rules.{at};
ghost use Rattle.law.specs.Stored.{stored};
ghost use Rattle.trial.specs.Views.{current_even, rows_now};

use crate::held::Held;
use rules::term::Term;
use search::relation::Relation;

impl Held {
    // What a term shows as: a constant as itself.
    pub(crate) fn shown_as(&self, term: Term) -> u32
        ensures { result ≡ at (stored self.now.shown) term }
    {
        match term {
            Term::Constant(number) => number,
            Term::Variable(symbol) => self.shown.get(symbol as usize).copied().unwrap_or(0),
        }
    }
}

impl Relation for Held {
    ghost meaning = { λ h. record { width = h.target.width; rows = rows_now h } };

    ghost even = { λ h. current_even h };

    fn width(&self) -> usize {
        self.target.width
    }

    fn rows(&self) -> usize {
        self.target.row_count
    }

    fn entry(&self, row: usize, column: usize) -> Option<u32> {
        if row < self.target.row_count && column < self.target.width {
            Some(self.shown_as(self.target.rows[row].terms[column]))
        } else {
            None
        }
    }
}
