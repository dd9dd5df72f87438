//! States of objects for a search: copies, equality, hashes, a table that stores each state once, and objects that spin.
//!
//! Does not know: configurations.
#![tactic(auto)]

mod calls;
mod contexts;
mod copies;
mod expressions;
mod hashes;
mod names;
mod spin;
mod statements;
mod states;
mod table;

pub use copies::copy;
pub use spin::SpinWatch;
pub use states::same;
pub use table::StateTable;
