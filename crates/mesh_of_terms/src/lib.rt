//! Terms as a language of objects on placed machines: the record of a program is a run of the transition relation.
//!
//! Definitions and laws only.
//!
//! Does not know: object code.
#![tactic(auto)]

pub mod theorems;
