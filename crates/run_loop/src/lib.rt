//! Runs a loaded program, and writes its record, output, report or counts to a sink.
//!
//! Does not know: files, and how inputs are read.
#![tactic(auto)]

mod drive;
mod loaded;
mod run;
pub mod theorems;
mod why;

pub use loaded::Loaded;
pub use run::{write_ring, write_run, write_why};
