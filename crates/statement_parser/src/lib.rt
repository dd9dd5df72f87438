//! Parses the statements of a list of tokens.
//!
//! Does not know: declarations, programs, and what names mean.
#![tactic(auto)]

pub mod statements;
mod steps;
