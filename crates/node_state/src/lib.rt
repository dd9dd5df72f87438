//! The state of one node, its ready slots, and small changes that keep both consistent.
//!
//! Does not know: packets, links and other nodes.
#![tactic(auto)]

mod choice;
mod long;
mod moves;
mod ready;
mod state;

pub use long::{AnswerPlace, LongAnswer, long_answers};
pub use ready::ReadySet;
pub use state::NodeParts;
