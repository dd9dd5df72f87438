//! Parses the words of the command line, with `clap`.
//!
//! Does not know: the content of files.
#![tactic(auto)]

mod command;
mod words;

pub use command::{Ask, Command, Files, Show};
pub use words::read_words;
