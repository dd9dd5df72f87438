//! Reads a record back, numbers the requests of its lines, and gives the transitions that a line shows.
//!
//! Laws: reading what was written gives the same lines. Re-exports the calls of `record_writer`.
//!
//! Does not know: whether a record is a run.
#![tactic(auto)]

mod asks;
mod fault;
mod numbered;
mod parsed_line;
mod posts;
mod read;
mod steps;
pub mod theorems;

pub use asks::Asks;
pub use fault::RecordFault;
pub use numbered::numbered_in;
pub use posts::{Posts, asks_of};
pub use read::{done_of, is_end, read_record};
pub use record_writer::{write_form, write_item, write_line, write_line2};
pub use steps::{Steps, label_of};
