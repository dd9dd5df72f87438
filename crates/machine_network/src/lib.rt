//! The network between the nodes of a machine: the packets on links, the wires, and the test whether all is quiet.
//!
//! Does not know: turns of nodes and moves of packets.
#![tactic(auto)]

mod quiet;
mod types;
mod wires;

pub use quiet::{is_quiet_now, quiet_after};
pub use types::Network;
pub use wires::{Wires, act_at, all_wires};
