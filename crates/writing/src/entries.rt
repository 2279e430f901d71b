// The entries of a row, one after another.
ghost use Rattle.std.specs.Prelude.{◌≡◌, [], slice_index_or};
ghost use Rattle.std.specs.Iterator.{YieldsFirst, item_count};
ghost use Rattle.writing.specs.Outcomes.{rows_of};

use crate::told::Told;
use std::marker::Model;

// The entries that a row has left.
#[derive(Drop)]
pub struct Entries<'f, F: Told> {
    told: &'f F,
    row: usize,
    column: usize,
}

impl<'f, F: Told> Model for Entries<'f, F> {
    ghost use Rattle.std.specs.Prelude.{ℕ, List, [], ◌≤◌, drop, slice_index_or};
    ghost use Rattle.writing.specs.Outcomes.{rows_of};

    ghost Value = { List ℕ };

    ghost view = { λ e. drop e.column (slice_index_or (rows_of (F.Told.outcome e.told.now)) e.row []) };

    // A row has at most 8.
    ghost invariant = { λ e. e.column ≤ 8 };
}

impl<'f, F: Told> Entries<'f, F> {
    // Those of a row; none past the last row.
    pub fn of_row(told: &'f F, row: usize) -> Entries<'f, F>
        ensures { result ≡ slice_index_or (rows_of (F.Told.outcome told.now)) row [] }
    {
        Entries {
            told,
            row,
            column: 0,
        }
    }
}

impl<'f, F: Told> Iterator for Entries<'f, F> {
    type Item = u32;

    ghost next_gives = { YieldsFirst (λ rest. rest) };

    ghost remaining = { item_count (λ rest. rest) };

    fn next(&mut self) -> Option<u32> {
        let e = self.told.entry(self.row, self.column)?;
        self.column += 1;
        Some(e)
    }
}
