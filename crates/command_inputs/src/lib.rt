//! Reads an input once and whole, judges a program or a record, and gives the line that reports a fault of an input.
//!
//! Does not know: what a command makes of its inputs, and sinks.
#![tactic(auto)]

mod fault;
mod inputs;
mod program;
mod record;

pub use fault::{
    Fault, Input, InputError, UnitFault, line_of_refusal, line_of_unread, push_count, push_place,
};
pub use inputs::{read_input, read_parsed, read_typed};
pub use program::{Parsed, judge_classes, read_program};
pub use record::{NamedLines, read_lines, read_named_lines, record_stop};
