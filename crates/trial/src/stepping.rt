// What the calls make of a trial's record.
ghost use Rattle.trial.specs.Stepping.{AdvanceDue, AdvancedHeld, FinishedHeld, StartDue, StartedHeld};

use crate::fault::TrialFault;
use crate::finished::Finished;
use crate::held::{Held, SYMBOLS};
use crate::merging::{Ran, run};
use law::outcome::{Stop, Verdict};
use rules::book::Book;
use rules::doubling::load_doubled;

// There are fewer merges than symbols, so that an advance by this many comes to rest or to a clash.
const ENOUGH: usize = SYMBOLS + 1;

// Why a start is refused, the first that applies.
fn check_start<B: Book, T: Book>(
    held: &Option<Held>,
    book: &B,
    targets: &T,
    number: usize,
) -> Result<(), TrialFault>
    ensures { StartDue (B.Book.meaning book.now) (T.Book.meaning targets.now) number held.now result }
{
    if held.is_some() {
        return Err(TrialFault::NotBlank);
    }
    if number >= targets.count() {
        return Err(TrialFault::NoRule(number));
    }
    if targets.width() != book.width() {
        return Err(TrialFault::WidthsDiffer);
    }
    Ok(())
}

pub(crate) fn start_held<B: Book, T: Book>(
    held: &Option<Held>,
    book: &B,
    targets: &T,
    number: usize,
) -> Result<Held, TrialFault>
    ensures { StartedHeld (B.Book.meaning book.now) (T.Book.meaning targets.now) number held.now result }
{
    check_start(held, book, targets, number)?;
    let target = load_doubled(targets, number).ok_or(TrialFault::NoRule(number))?;
    Ok(Held::fresh(target))
}

// The record that an advance goes on from, or why it is refused, the first that applies.
fn under_way<B: Book>(held: Option<Held>, book: &B) -> Result<Held, TrialFault>
    ensures { AdvanceDue (B.meaning book.now) held result }
{
    let held = held.ok_or(TrialFault::StillBlank)?;
    if held.target.width != book.width() {
        return Err(TrialFault::WidthsDiffer);
    }
    Ok(held)
}

pub(crate) fn advance_held<B: Book>(
    held: Option<Held>,
    book: &B,
    n: usize,
) -> Result<Ran, TrialFault>
    ensures { AdvancedHeld (B.meaning book.now) n held result }
{
    let held = under_way(held, book)?;
    if held.clashed {
        return Ok(Ran {
            held,
            made: 0,
            stop: Stop::Clash,
        });
    }
    Ok(run(held, book, n))
}

// Where an advance is refused the verdict is void.
pub(crate) fn finish_held<B: Book>(held: Option<Held>, book: &B) -> Finished
    ensures { FinishedHeld (B.meaning book.now) held result }
{
    let Ok(ran) = advance_held(held, book, ENOUGH) else {
        return Finished {
            held,
            verdict: Verdict::Void,
        };
    };
    let verdict = ran.held.judge();
    Finished {
        held: Some(ran.held),
        verdict,
    }
}
