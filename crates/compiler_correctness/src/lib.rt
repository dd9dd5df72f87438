//! Laws of object code: compiled code has the same record as its program's terms, and verified code never goes wrong.
//!
//! Records of code can be read back. Definitions and laws only.
//!
//! Does not know: how nodes and their machine are implemented.
#![tactic(auto)]

pub mod beside_terms;
pub mod of_files;
pub mod of_records;
