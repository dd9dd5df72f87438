//! The top-level function of `explore`: from arguments, files and two sinks to an exit status.
//!
//! Does not know: the system's files and standard streams.
#![tactic(auto)]

mod follow;
mod outputs;
mod top;
mod unexpected;
mod words;

pub use top::explore;
