//! Object slots, variables and frames of one node, in memory allocated once.
//!
//! Does not know: the meaning of instructions.
#![tactic(auto)]

mod cells;
mod heap;
mod operands;
mod temps;
mod types;

pub use heap::Heap;
pub use types::{FrameHead, HeapFull, HeapLimits};
