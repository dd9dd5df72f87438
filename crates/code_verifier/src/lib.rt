//! Verifies object code files: one stack of sorts at each reached place, or the first fault.
//!
//! Does not know: programs, nodes and the bytes of files.
#![tactic(auto)]

mod circles;
mod classes;
mod codes;
mod effects;
mod existing;
mod fault;
mod headings;
mod index;
mod judgement;
mod scope;
mod spread;
mod texts;
mod verified;
mod verifier;

pub use fault::VerifyFault;
pub use verified::Verified;
pub use verifier::verify;
