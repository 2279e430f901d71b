// Lines put together from pieces: fixed words, numbers, names, and `$` with a symbol.
#![tactic(auto)]

pub mod laws;
pub mod line;
pub mod output;
pub mod piece;
mod put;
pub mod word;
