//! Generates the inputs of a ring of objects: its program, its placement, and a pseudo-random schedule.
//!
//! Does not know: how these texts are read or run.
#![tactic(auto)]

mod cells;
mod drawn;
mod pieces;

pub use cells::{Texts, ring};
