// The report: a text in, verdicts and counter rows out.
#![tactic(auto)]

pub mod answer;
pub mod fault;
pub mod faults;
mod judged;
pub mod laws;
pub mod report;
mod targets;
