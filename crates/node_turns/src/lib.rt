//! One turn of a node: the step of the object whose turn it is, within the limits of the node.
//!
//! Does not know: packets that arrive, links and other nodes.
#![tactic(auto)]

mod making;
mod turn;

pub use turn::{first_ready, turn_of};
