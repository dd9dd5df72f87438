//! Searches the runs of a program, and makes the text of the result.
//!
//! Does not know: how the search works, and files.
#![tactic(auto)]

/// Makes a call that appends to a text, and returns its error if memory runs out.
macro_rules! put {
    ($call:expr) => {
        let Ok(()) = $call else {
            return Err(AllocError);
        };
    };
}

mod answer;
mod answers;
mod causes;
mod chosen;
mod errors;
mod grading;
mod shown;
mod steps;
pub mod theorems;

pub use answers::{Answer, Found, Question, answer_of};
