//! Writes the lines of an object's term from the stepper's evaluation contexts: its body, and each method under way,
//! with the redex marked.
//!
//! Does not know: other objects and configurations. An error of a function means out of memory.
#![tactic(auto)]

/// Makes a call that appends to a text, and returns its error if memory runs out.
macro_rules! put {
    ($call:expr) => {
        let Ok(()) = $call else {
            return Err(AllocError);
        };
    };
}

mod inner;
mod levels;
mod places;
mod redex;
mod running;
mod slots;
pub mod theorems;

pub use levels::push_work;
