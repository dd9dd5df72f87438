//! Reads a placement: mesh, routes, node limits, and where objects of each class are created; or its first fault.
//!
//! Does not know: trees of programs, schedules and machines.
#![tactic(auto)]

mod fault;
mod form;
mod forms;
mod judge;
mod read;

pub use fault::PlacementFault;
pub use read::{read_placement, read_routed};
