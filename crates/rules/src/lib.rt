// What rules mean, and the one trait through which all code asks a book of them.
#![tactic(auto)]

pub mod book;
pub mod doubling;
pub mod fault;
pub mod laws;
pub mod load;
pub mod loaded;
mod printing;
pub mod refusal;
mod refusing;
mod slices;
pub mod term;
