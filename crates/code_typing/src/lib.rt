//! Typed object code: sorts of operands, stacks of sorts, and the definitions of verified files and of the verdict on a
//! file.
//!
//! Does not know: programs, nodes and the bytes of files.
#![tactic(auto)]

mod cell;
mod sort;
mod stacks;
pub mod theorems;

pub use cell::{Cell, Stacks};
pub use sort::{
    Sort, is_comparison, is_prefix, kind_sort, op_sort, operand_sort, result_sort, value_sort,
};
