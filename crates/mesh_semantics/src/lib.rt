//! The placed machine, over any language of objects: configurations with delay, events, records, soundness, and wires.
//!
//! Definitions and laws only.
//!
//! Does not know: terms and object code.
#![tactic(auto)]

pub mod theorems;
