//! The operators of the language on values, and equality of values.
//!
//! Does not know: programs, and which operands an expression has.
#![tactic(auto)]

mod operators;

pub use operators::{Answer, on_ints, operate, operate_one, same};
