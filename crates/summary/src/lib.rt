// What a text is read as, in words.
#![tactic(auto)]

mod beginning;
pub mod laws;
pub mod putting;
pub mod quoting;
pub mod summary;
pub mod telling;
