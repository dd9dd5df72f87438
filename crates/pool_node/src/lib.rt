//! One node of a placed program: makes turns of its objects, and receives packets that reach their goal.
//!
//! Does not know: links and other nodes.
#![tactic(auto)]

mod making_node;
mod node;
mod receipt;
mod standing;

pub use node::Node;
pub use node_acts::{Act, NodePlan, StepOutput, TurnOutcome};
