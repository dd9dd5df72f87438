//! What a reader may conclude from the text of a record that is followed.
//!
//! Laws of the definitions only.
//!
//! Does not know: the stepper and files.
#![tactic(auto)]

pub mod theorems;
