// The outcome that is due to a target of a book.
#![tactic(auto)]

pub mod laws;
