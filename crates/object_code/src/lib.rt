//! Writes and reads object code: the listing of a unit, and the bytes of an object code file.
//!
//! Re-exports the types of `code_semantics`.
//!
//! Does not know: how code runs, and which files are verified.
#![tactic(auto)]

mod code_fault;
mod file_reader;
mod file_writer;
mod listing;
mod theorems;

pub use code_fault::CodeFault;
pub use code_semantics::{
    AltCode, BodyCode, ClassCode, ClassKinds, Instr, Kinds, MethodCode, MethodKinds, Unit, UnitFile,
};
pub use file_reader::decode;
pub use file_writer::encode;
pub use listing::list_code;
pub use theorems::{
    bytes_are_their_file, files_are_their_bytes, proper_units_can_be_listed,
    short_files_have_bytes, the_bad_byte_is_the_first,
};
