//! The term of an object as a stack of evaluation contexts around its redex, and the changes that transitions make to
//! it.
//!
//! Does not know: other objects and configurations.
#![tactic(auto)]

pub mod changes;
pub mod contexts;
mod enter;
mod seek;
