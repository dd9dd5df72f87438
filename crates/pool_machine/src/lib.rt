//! The machine of a placed program: all nodes and the links between them, one event at a time.
//!
//! Does not know: trees of programs, texts and schedules.
#![tactic(auto)]

mod counts;
mod machine;
mod moves;
mod report;
mod step;
mod turns;
mod types;
mod wired;

pub use machine::Machine;
pub use pool_node::StepOutput;
pub use run_types::Standing;
pub use types::{EventOutcome, OpenFault, Outcome};
