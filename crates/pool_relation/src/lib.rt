//! The transition relation of POOL over unplaced objects, with its laws: typed configurations stay typed, and no object
//! goes wrong.
//!
//! Definitions and laws only.
//!
//! Does not know: nodes, packets and object code.
#![tactic(auto)]

pub mod theorems;
