//! Notes the faults of the declarations of a program: its classes, methods and variables.
//!
//! Does not know: what a program is checked for, and how it runs.
#![tactic(auto)]

mod declarations;

pub use declarations::{Owner, classes};
