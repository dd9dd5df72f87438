//! Judges a record that comes as a stream, and fills in the local transitions of a record that has none.
//!
//! Does not know: files and sinks.
#![tactic(auto)]

mod fill;
mod fill_lines;
mod filling;
mod judge;
mod lines;
mod local;
pub mod theorems;

pub use fill::{Filled, fill_record};
pub use judge::{Judge, Stop};
