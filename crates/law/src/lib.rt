// What a trial of a rule is, what its calls promise, and the laws of trials.
#![tactic(auto)]

pub mod laws;
pub mod outcome;
mod words;
