// What came of targets, and a refusal, written as lines.
#![tactic(auto)]

pub mod closing;
pub mod entries;
pub mod laws;
pub mod naming;
pub mod refused;
mod refusing;
pub mod room;
pub mod target;
pub mod told;
