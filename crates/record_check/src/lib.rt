//! Judges with the stepper whether a record is a run of its program, and gives the line of the verdict.
//!
//! Does not know: files, object code, and how nodes and their machine are implemented.
#![tactic(auto)]

mod labels;
mod lead;
mod line;
pub mod theorems;
mod verdict;

pub use labels::root;
pub use lead::{Mismatch, follow, follow_line};
pub use line::verdict_line;
pub use verdict::{check_record, judge_end};
