//! A link as a wire that may lose, repeat and reorder frames: go-back-N in fixed memory, and frames as bytes.
//!
//! Does not know: routes and other links.
#![tactic(auto)]

mod frame;
mod reading;
mod ring;
mod sides;
pub mod theorems;
mod wire;
mod writing;

pub use frame::{Frame, FrameBytes};
pub use reading::decode;
pub use wire::{Arrived, Sent, Side, Wire};
pub use writing::encode;
