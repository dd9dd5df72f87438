//! The frames between stations, and their bytes: the number of a run, and a packet with a number of 64 bits or an
//! acknowledgement.
//!
//! Does not know: links, and when a frame is sent or taken.
#![tactic(auto)]

mod frame;
mod reading;
pub mod theorems;
mod writing;

pub use frame::{StationBytes, StationFrame};
pub use reading::decode;
pub use writing::encode;
