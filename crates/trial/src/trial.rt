// A trial under way. What each call answers, and what it leaves, is what the law of trials says of it; and after every
// history that leads to the trial as the call found it, the promise holds of that history with this call added.
ghost use Rattle.std.specs.Prelude.{◌≡◌};
ghost use Rattle.law.specs.Calls.{Advance, Advances, Blank, Finishes, Start, Starts};
ghost use Rattle.law.specs.Standing.{CallPromised, FinishPromised};
ghost use Rattle.trial.specs.Tells.{told};
ghost use Rattle.trial.specs.Faults.{started, advanced};
ghost use Rattle.trial.specs.Seen.{seen, Unchanged};

use crate::fault::TrialFault;
use crate::finished::Finished;
use crate::held::Held;
use crate::stepping::{advance_held, finish_held, start_held};
use law::outcome::Stop;
use rules::book::Book;

// What it holds, or none while it is blank.
#[derive(Drop)]
pub struct Trial {
    held: Option<Held>,
}

impl Trial {
    // No target yet.
    pub fn blank() -> Trial
        ensures { seen result ≡ Blank }
    {
        Trial { held: None }
    }

    // Takes rule number `number` of the book of targets as the target of a blank trial.
    pub fn start<B: Book, T: Book>(
        &mut self,
        book: &B,
        targets: &T,
        number: usize,
    ) -> Result<(), TrialFault>
        ensures answered { Starts (B.Book.meaning book.now) (T.Book.meaning targets.now) number (seen self.old) (started result) (seen self.new) }
        ensures unchanged { Unchanged result self.old self.new }
        ensures promised { CallPromised (B.Book.meaning book.now) (Start (T.Book.meaning targets.now) number) (seen self.old) (started result) (seen self.new) }
    {
        self.held = Some(start_held(&self.held, book, targets, number)?);
        Ok(())
    }

    // Merges one open spot at a time, and tells how many merges it made and why it stopped: n are made, no open spot is
    // left, or two constants met, which the trial keeps.
    pub fn advance<B: Book>(&mut self, book: &B, n: usize) -> Result<(usize, Stop), TrialFault>
        ensures answered { Advances (B.meaning book.now) n (seen self.old) (advanced result) (seen self.new) }
        ensures unchanged { Unchanged result self.old self.new }
        ensures promised { CallPromised (B.meaning book.now) (Advance n) (seen self.old) (advanced result) (seen self.new) }
    {
        let ran = advance_held(self.held, book, n)?;
        self.held = Some(ran.held);
        Ok((ran.made, ran.stop))
    }

    // Takes the trial away, brings its merging to its end, and gives the verdict.
    pub fn finish<B: Book>(self, book: &B) -> Finished
        ensures answered { Finishes (B.meaning book.now) (seen self) (told result) }
        ensures promised { FinishPromised (B.meaning book.now) (seen self) (told result) }
    {
        finish_held(self.held, book)
    }
}
