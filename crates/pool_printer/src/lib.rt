//! Writes the canonical text of a program to a sink, piece by piece.
//!
//! Does not know: files, and whether a program is typed.
#![tactic(auto)]

mod declarations;
mod expressions;
mod levels;
mod program;
mod statements;
pub mod theorems;
mod token_writer;

pub use levels::{left_need, level, operator_level, right_need};
pub use program::print;
