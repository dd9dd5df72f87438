//! The top-level function of `pool`: from arguments, files and two sinks to an exit status.
//!
//! Reads and verifies object code files.
//!
//! Does not know: the system's files and standard streams.
#![tactic(auto)]

mod converted;
mod inputs;
mod judged;
mod outputs;
mod program;
mod texts;
pub mod theorems;
mod top;
mod unit_reader;
pub mod unit_theorems;

pub use command_shell::Status;
pub use top::pool;
