//! One object of the stepper: its offers to a caller, and its changes.
//!
//! Does not know: other objects and configurations.
#![tactic(auto)]

pub mod object_state;
pub mod offers;
