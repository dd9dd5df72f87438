//! Checks the classes of a program: returns the program as `Checked`, or its first class fault.
//!
//! Does not know: how a program runs.
#![tactic(auto)]

mod program;
pub mod theorems;

pub use program::{Checked, check};
pub use type_check::ClassFault;
