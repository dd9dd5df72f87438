//! Stations whose objects are of code: their merged lines show one run.
//!
//! Definitions and laws only.
//!
//! Does not know: terms, the compiler, and the bytes of frames.
#![tactic(auto)]

pub mod theorems;
