//! What the two programs share around a request: the exit statuses, and the writing of an output or of the line of an
//! error.
//!
//! Does not know: requests, and what an output says.
#![tactic(auto)]

mod output;
mod status;
mod verdicts;

pub use output::{say, say_stop};
pub use status::Status;
pub use verdicts::status_of_verdict;
