// Where the rows of a relation break a rule of a book, or that they keep it.
#![tactic(auto)]

mod bounds;
mod cell;
mod choices;
pub mod find;
mod ground;
mod grouped;
mod look;
mod order;
mod placing;
mod plan;
mod quiet;
mod reading;
pub mod relation;
pub mod row;
mod seen;
pub mod spot;
mod spots;
pub mod table;
mod walk;
