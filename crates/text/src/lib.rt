// A list over lent places, and the lines, words and counts of a text of bytes.
#![tactic(auto)]

pub mod counts;
pub mod laws;
pub mod line_words;
pub mod lines;
pub mod list;
pub mod words;
