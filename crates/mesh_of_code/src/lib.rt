//! Object code as a language of objects on placed machines, with the laws that such a language needs.
//!
//! Does not know: terms and the compiler.
#![tactic(auto)]

pub mod theorems;
