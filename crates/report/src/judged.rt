// A finished trial as the report tells it.
ghost use Rattle.std.specs.Prelude.{ℕ, ◌≤◌};
ghost use Rattle.trial.specs.Tells.{told};
ghost use Rattle.writing.specs.Outcomes.{Narrow};
ghost use Rattle.outcomes.specs.Laws.{outcome_of};

use law::outcome::Verdict;
use trial::finished::Finished;
use writing::told::Told;

// Its rows have at most 8 entries each.
#[derive(Drop)]
pub(crate) struct Judged {
    pub(crate) finished: Finished,
    ghost narrow: { Narrow (outcome_of (told finished)) },
}

impl Told for Judged {
    ghost outcome = { λ f. outcome_of (told f.finished) };

    ghost narrow = { λ f. f.narrow };

    fn rows(&self) -> Option<usize> {
        match self.finished.verdict() {
            Verdict::Fails => Some(self.finished.rows()),
            _ => None,
        }
    }

    fn entry(&self, row: usize, column: usize) -> Option<u32> {
        self.finished.entry(row, column)
    }
}
