//! Stations over any language of objects: nodes by themselves, each with its own ends of the links, and a carrier that
//! may lose, repeat and reorder their frames; the merged lines of all stations are a record.
//!
//! Definitions and laws only.
//!
//! Does not know: terms, object code, and the bytes of frames.
#![tactic(auto)]

pub mod theorems;
