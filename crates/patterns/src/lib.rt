//! Patterns of what a run writes: a table that gives a number to each pattern, and tells what is left of one after an item.
//!
//! Does not know: runs and programs.
#![tactic(auto)]

mod after;
mod items;
mod level;
mod node;
mod reader;
mod short;
mod sign;
mod table;
pub mod theorems;

pub use level::{Level, Reader};
pub use node::{Node, Row};
pub use sign::{Sign, Times};
pub use table::{PatternTable, Shortage};
