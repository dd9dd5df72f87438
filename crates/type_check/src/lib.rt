//! Checks the types of expressions and statements, and notes the least of their class faults.
//!
//! Does not know: declarations, and how a program runs.
#![tactic(auto)]

mod classes;
mod expressions;
mod fault;
mod index;
mod named;
mod scope;
mod sort;
pub mod statements;

pub use classes::{Classes, method_places};
pub use expressions::{placed, variable_at};
pub use fault::{ClassFault, note};
pub use index::{Index, places_of};
pub use named::HasName;
pub use scope::Scope;
pub use sort::{Placed, Sort, kind_sort, note_misfit};
