//! The text of terms with the redex marked, and of objects and configurations; it writes expressions and statements of
//! a program.
//!
//! Does not know: the stepper and files. An error of a function means out of memory.
#![tactic(auto)]

/// Makes a call that appends to a text, and returns its error if memory runs out.
macro_rules! put {
    ($call:expr) => {
        let Ok(()) = $call else {
            return Err(AllocError);
        };
    };
}

mod expressions;
mod parts;
mod statements;

pub use expressions::{
    push_arguments, push_call, push_enclosed, push_expression, push_more_arguments, push_operator,
};
pub use parts::{push_bindings, push_mark, push_names, push_unmark};
pub use statements::{
    push_alternatives, push_answer, push_else, push_more_statements, push_select, push_statement,
    push_statements,
};
