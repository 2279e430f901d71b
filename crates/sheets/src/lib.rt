// Sheets: books of rules that are written down as 32-bit words.
#![tactic(auto)]

pub mod laws;
mod reads;
pub mod sheet;
mod table;
mod walk;
