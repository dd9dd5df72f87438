//! A fixed region of cells, allocated once, with doubly linked queues in it.
//!
//! Does not know: what the cells hold.
#![tactic(auto)]

mod parts;
mod pool;

// A crate can name a pool in a contract only if the types of its fields are exported.
#[doc(hidden)]
pub use parts::Parts;
pub use pool::CellPool;
