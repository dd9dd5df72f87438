//! Follows the lines of a record on the stepper, and makes the text that shows the run configuration by configuration,
//! or the report on its last configuration.
//!
//! Does not know: files, words of commands, and who wrote the record.
#![tactic(auto)]

mod acting;
mod blocks;
mod changes;
mod follow;
mod line;
mod mails;
mod part;
pub mod theorems;
mod waits;
mod watched;
mod wholes;

pub use part::watch_lines;
pub use waits::report_waits;
pub use watched::{Watched, watch_record};
