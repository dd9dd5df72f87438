//! Program arguments, files by name, and byte sinks: traits, implementations in memory and over the system, and
//! definitions for contracts.
//!
//! Does not know: the meaning of the bytes.
#![tactic(auto)]

mod arguments;
mod buffered;
mod calls;
mod edge;
mod memory;
mod outside;

pub use arguments::args_after_program_name;
pub use buffered::{Behind, Buffered, Text, write_gathered};
pub use calls::{ReadFault, WriteFault, read_whole, write_all_of};
pub use edge::{StdFiles, StdSink};
pub use memory::{CalmFiles, CalmSink, MemFiles, MemSink, NamedText, PieceFiles};
pub use outside::{Failed, Files, Sink};
