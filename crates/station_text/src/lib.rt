//! The text that a station reads and writes: commands with their faults, and the lines of answers, with frames as
//! hexadecimal digits; and the same in pieces of bytes with their lengths.
//!
//! Does not know: when a line comes, and what a station makes of it.
#![tactic(auto)]

mod answers;
mod commands;
mod digits;
mod frames;
mod pieces;
pub mod theorems;

pub use answers::{push_full, push_last, push_line, push_rest};
pub use commands::{Command, CommandFault, command_in};
pub use frames::{push_frame, push_other};
pub use pieces::{FRAME, LINE, Piece, first_piece, piece_command, push_frame_piece, push_piece};
