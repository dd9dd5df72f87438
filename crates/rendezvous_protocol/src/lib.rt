//! The packets between nodes, and the number of each slot's outstanding request.
//!
//! Does not know: how packets travel.
#![tactic(auto)]

mod outstanding;
mod packet;

pub use outstanding::Outstanding;
pub use packet::{Packet, goal};
