// The key list: functional dependencies between columns, written as pairs of bytes.
#![tactic(auto)]

pub mod checking;
pub mod columns;
pub mod key_list;
pub mod laws;
