// What the texts that are read spell.
#![tactic(auto)]

pub mod laws;
pub mod spelled;
