// Two books as one.
#![tactic(auto)]

pub mod fault;
pub mod joined;
mod place;
mod refusing;
