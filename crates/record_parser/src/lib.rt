//! Parses one line of a record: its words, and the numbers, names and values that they spell.
//!
//! Does not know: the other lines of the record.
#![tactic(auto)]

mod fields;
mod line;
mod shown;
mod spelled;

pub use fields::{Front, cut};
pub use line::{ReadLine, line_in};
pub use spelled::count;
