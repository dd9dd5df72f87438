//! The next action of one object of the stepper.
//!
//! Does not know: what an object becomes, other objects and configurations.
#![tactic(auto)]

pub mod act;
pub mod arguments;
pub mod change;
pub mod lookup;
