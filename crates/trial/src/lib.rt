// Trials: whether a rule follows from a book.
#![tactic(auto)]

pub mod fault;
pub mod finished;
mod fresh;
mod held;
mod judging;
mod merging;
mod refusing;
pub mod replay;
pub mod reply;
pub mod request;
mod rows;
mod stepping;
pub mod trial;
