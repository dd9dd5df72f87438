//! Object code: its types, the effect of each instruction, proper units, and the laws that steps preserve.
//!
//! Does not know: trees of programs and the compiler.
#![tactic(auto)]

mod file;
pub mod theorems;
mod unit;

pub use file::{ClassKinds, Kinds, MethodKinds, UnitFile};
pub use unit::{AltCode, BodyCode, ClassCode, Instr, MethodCode, Unit};
