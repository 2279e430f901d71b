ghost use Rattle.std.specs.Prelude.{◌≡◌, ◌≤◌, min};
ghost use Rattle.search.specs.Relations.{cut, cut_even};

use crate::relation::Relation;
use crate::row::Row;

// A relation over lent rows, each with its first `width` entries.
#[derive(Clone, Copy)]
pub struct Table<'a> {
    rows: &'a [Row],
    width: usize,
    ghost ok: { width ≤ 8 },
}

impl<'a> Table<'a> {
    // A width past 8 counts as 8.
    pub fn new(rows: &'a [Row], width: usize) -> Table<'a>
        ensures rows { result.rows.now ≡ rows.now }
        ensures width { result.width ≡ min width 8 }
    {
        Table {
            rows,
            width: width.min(8),
        }
    }
}

impl Relation for Table<'_> {
    ghost meaning = { λ t. record { width = t.width; rows = cut t.width t.rows.now } };

    ghost even = { λ t. cut_even t.width t.rows.now };

    fn width(&self) -> usize {
        self.width
    }

    fn rows(&self) -> usize {
        self.rows.len()
    }

    fn entry(&self, row: usize, column: usize) -> Option<u32> {
        if row < self.rows.len() && column < self.width {
            Some(self.rows[row].entries[column])
        } else {
            None
        }
    }
}
