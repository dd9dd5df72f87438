//! Laws that test the definitions: the hardest ones, each stated in a second way, and what a search implies for all
//! records.
//!
//! Definitions and laws only.
//!
//! Does not know: object code, and how nodes and their machine are implemented.
#![tactic(auto)]

pub mod contexts;
pub mod judgements;
pub mod nesting;
pub mod records;
pub mod theorems;
pub mod turns;
pub mod ways;
