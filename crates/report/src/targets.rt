// The lines of every target.
ghost use Rattle.std.specs.Prelude.{◌≡◌, ◌<◌, ◌≤◌, length, MatchResult};
ghost use Rattle.pieces.specs.Put.{Same, size};
ghost use Rattle.trial.specs.Tells.{told};
ghost use Rattle.outcomes.specs.Due.{DueAt};
ghost use Rattle.outcomes.specs.Laws.{outcome_of};
ghost use Rattle.report.specs.Reported.{ReportFills};

use crate::fault::ReportFault;
use crate::judged::Judged;
use pieces::output::{Output, Short};
use pieces::word::Word;
use rules::book::Book;
use trial::trial::Trial;
use writing::naming::Naming;
use writing::room::TooShort;
use writing::target::put_count;

// Tries target i to its end.
fn try_target<B: Book, T: Book>(book: &B, targets: &T, i: usize) -> Result<Judged, ReportFault>
    ensures { MatchResult result
        (λ j. DueAt (B.Book.meaning book.now) (T.Book.meaning targets.now) i (outcome_of (told j.finished)))
        (λ _. (T.Book.meaning targets.now).width ≡ (B.Book.meaning book.now).width → i < length (T.Book.meaning targets.now).rules → ⊥) }
{
    let mut trial = Trial::blank();
    trial.start(book, targets, i)?;
    Ok(Judged {
        finished: trial.finish(book),
    })
}

// A put that failed is refused at a place.
fn short_at(put: Result<(), Short>, place: usize) -> Result<(), TooShort>
    ensures { MatchResult put (λ u. result ≡ Ok u) (λ _. result ≡ Err (record { place = place })) }
{
    put.map_err(|_| TooShort { place })
}

// Writes the first line, and the lines of each target. That what is written is within the
// places is asked of it here and by its callers: as a fact of the public `Output` it would be asked of whoever makes one.
pub(crate) fn put_targets<B: Book, T: Book>(
    out: &mut Output,
    naming: &Naming,
    book: &B,
    targets: &T,
) -> Result<(), ReportFault>
    requires { out.old.used ≤ size out.old }
    ensures same { Same out.old out.new }
    ensures fills { (T.Book.meaning targets.now).width ≡ (B.Book.meaning book.now).width → ReportFills (B.Book.meaning book.now) (T.Book.meaning targets.now) naming.now.text.now naming.now.names.now out.old result out.new }
{
    let count = targets.count();
    short_at(put_count(out, Word::Targets, count), 0)?;
    for i in 0..count {
        let judged = try_target(book, targets, i)?;
        short_at(naming.put_target(out, i + 1, &judged), i + 1)?;
    }
    Ok(())
}
