//! A region of cells, allocated once, and the links between the cells of a doubly linked queue.
//!
//! Does not know: which cells are free, and how many queues there are.
#![tactic(auto)]

mod queue;
mod region;

pub use queue::{Cell, Queue, append, prepend, prepend_held, unlink, value_mut};
pub use region::{Deed, Place, Region, allocate, deallocate};
