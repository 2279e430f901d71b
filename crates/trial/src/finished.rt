// A finished trial.
ghost use Rattle.std.specs.Prelude.{◌≡◌, [], length, MatchOption};
ghost use Rattle.law.specs.Groups.{place};
ghost use Rattle.law.specs.Calls.{finished_rows, finished_width};
ghost use Rattle.law.specs.Laws.{merges_of};
ghost use Rattle.trial.specs.Tells.{told};
ghost use Rattle.trial.specs.Views.{rows_now};

use crate::held::Held;
use law::outcome::Verdict;
use search::relation::Relation;

// Its verdict, and the record as finish left it, or none for a trial that was never started. It has rows only where it
// fails.
#[derive(Drop)]
pub struct Finished {
    pub(crate) held: Option<Held>,
    pub(crate) verdict: Verdict,
}

impl Finished {
    pub fn verdict(&self) -> Verdict
        ensures { result ≡ (told self.now).verdict }
    {
        self.verdict
    }

    // The target's width, or 1 for a trial that was never started.
    pub fn width(&self) -> usize
        ensures { result ≡ finished_width (told self.now) }
    {
        self.held.as_ref().map_or(1, |held| held.target.width)
    }

    // The merges made over the trial's life.
    pub fn merges(&self) -> usize
        ensures { result ≡ merges_of (told self.now).left }
    {
        self.held.as_ref().map_or(0, |held| held.merges)
    }

    // The record whose rows it has.
    fn failed(&self) -> Option<&Held>
        ensures { MatchOption result (finished_rows (told self.now) ≡ []) (λ held. finished_rows (told self.now) ≡ rows_now held.now) }
    {
        match self.verdict {
            Verdict::Fails => self.held.as_ref(),
            Verdict::Void | Verdict::Follows => None,
        }
    }

    // How many rows it has.
    pub fn rows(&self) -> usize
        ensures { result ≡ length (finished_rows (told self.now)) }
    {
        self.failed().map_or(0, |held| held.rows())
    }

    // What stands in a row and column, both from 0: a constant, or 16,777,216 plus a symbol. None past an end.
    pub fn entry(&self, row: usize, column: usize) -> Option<u32>
        ensures { result ≡ place (finished_rows (told self.now)) row column }
    {
        self.failed()?.entry(row, column)
    }
}
