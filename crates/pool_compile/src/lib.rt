//! Compiles a checked program to the unit that the definition gives for it.
//!
//! Does not know: nodes and schedules.
#![tactic(auto)]

mod builder;
mod expressions;
mod fault;
mod numbers;
mod operand_depth;
mod program;
mod scope;
mod statements;
mod theorems;

pub use fault::CompileFault;
pub use program::compile;
pub use theorems::{code_follows, new_code_stands};
