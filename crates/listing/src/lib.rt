// A book in words.
#![tactic(auto)]

pub mod listing;
mod words;
