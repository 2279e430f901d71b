// A list of calls, made one after another on a blank trial.
ghost use Rattle.std.specs.Prelude.{map, IfOk};
ghost use Rattle.law.specs.Promise.{Steps};
ghost use Rattle.trial.specs.Seen.{seen};
ghost use Rattle.trial.specs.Replays.{answer_of, asked, Concluded, ReplayedSo};

use crate::finished::Finished;
use crate::reply::{Done, Reply};
use crate::request::Request;
use crate::trial::Trial;
use rules::book::Book;
use std::alloc::{AllocError, Global};

// The trial as the calls left it, or finished.
#[derive(Drop)]
pub enum Outcome {
    Going(Trial),
    Finished(Finished),
}

// Each call's answer, in their order, and what became of the trial.
#[derive(Drop)]
pub struct Replayed {
    pub replies: Vec<Reply>,
    pub outcome: Outcome,
}

fn call<B: Book, T: Book>(trial: &mut Trial, book: &B, request: &Request<'_, T>) -> Reply
    ensures { Steps (B.Book.meaning book.now) (asked T.Book.meaning request.now) (seen trial.old) (answer_of result) (seen trial.new) }
{
    match request {
        Request::Start(targets, number) => {
            trial.start(book, *targets, *number)?;
            Ok(Done::Started)
        }
        Request::Advance(n) => {
            let (made, stop) = trial.advance(book, *n)?;
            Ok(Done::Merged(made, stop))
        }
    }
}

fn conclude<B: Book>(trial: Trial, book: &B, finish: bool) -> Outcome
    ensures { Concluded (B.meaning book.now) (seen trial) finish result }
{
    if finish {
        Outcome::Finished(trial.finish(book))
    } else {
        Outcome::Going(trial)
    }
}

// Makes these calls with this book, and finishes the trial if that is asked.
pub fn replay<B: Book, T: Book>(
    heap: Global,
    book: &B,
    requests: &[Request<'_, T>],
    finish: bool,
) -> Result<Replayed, AllocError>
    ensures { IfOk result (λ p. ReplayedSo (B.Book.meaning book.now) (map (asked T.Book.meaning) requests.now) finish (map answer_of p.replies.items) p.outcome) }
{
    let mut trial = Trial::blank();
    let mut replies = Vec::new(heap);
    for request in requests {
        let reply = call(&mut trial, book, request);
        replies.push(reply)?;
    }
    let outcome = conclude(trial, book, finish);
    Ok(Replayed { replies, outcome })
}
