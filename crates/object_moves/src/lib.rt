//! What transitions make of objects, by the numbers of their states. Each transition of a state, or of two, is computed
//! once.
//!
//! Does not know: which configurations a search keeps.
#![tactic(auto)]

mod changes;
mod equality;
mod hashes;
mod known;
mod mails;
mod parts;
mod rows;
mod table;

pub use equality::same_values;
pub use known::Lead;
pub use rows::push_movers;
pub use table::MoveTable;
