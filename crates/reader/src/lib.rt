// The reader: a text is read as the book and the targets that it spells.
#![tactic(auto)]

mod count;
pub mod desk;
mod entry;
pub mod fault;
mod lent;
mod put;
mod read;
pub mod reader;
mod refusing;
