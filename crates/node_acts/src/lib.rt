//! The steps of an object that write, send, return or accept, within the limits of its node.
//!
//! Does not know: whose turn it is, new objects, links and other nodes.
#![tactic(auto)]

mod acts;
mod serving;
mod types;

pub use acts::{
    async_turn, call_turn, deliver_to, fault_turn, name_of, no_cell, return_turn, settle_if_out,
    step, write_turn,
};
pub use serving::choose_turn;
pub use types::{Act, NodePlan, Returning, Sending, StepOutput, TurnOutcome};
