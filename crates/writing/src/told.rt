// What is told of a target's finished trial.
ghost use Rattle.std.specs.Prelude.{◌≡◌};
ghost use Rattle.writing.specs.Outcomes.{Outcome, Narrow, count_of_rows, entry_at};

pub trait Told {
    ghost outcome: { Self → Outcome };

    // Each row has at most 8 entries.
    ghost narrow: { (f : Self) → Narrow (outcome f) };

    // How many rows there are, or none where the target follows.
    fn rows(&self) -> Option<usize>
        ensures { result ≡ count_of_rows (outcome self.now) };

    // The entry at a row and a column, or none past an end: a number, as the entries of a relation are.
    fn entry(&self, row: usize, column: usize) -> Option<u32>
        ensures { result ≡ entry_at (outcome self.now) row column };
}
