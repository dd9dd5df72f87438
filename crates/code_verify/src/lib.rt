//! The public face of the verifier, and the object code file of a program with its declared kinds.
//!
//! Re-exports `verify`.
//!
//! Does not know: nodes and the bytes of files.
#![tactic(auto)]

mod unit_file;

pub use code_verifier::{Verified, VerifyFault, verify};
pub use unit_file::file_of;
