//! A station: one node of a placed program by itself, with its own ends of the links. It makes turns, and takes frames
//! of its neighbours.
//!
//! Does not know: other stations, bytes and texts, and when a packet is sent.
#![tactic(auto)]

mod arrival;
mod ends;
mod making;
mod outcome;
mod parts;
mod posting;
mod station;
mod turning;

pub use outcome::{StationFault, StationOutcome};
pub use pool_node::StepOutput;
pub use station::Station;
