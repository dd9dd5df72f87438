//! Nodes and the machine of nodes, over any language of objects, and the configuration that such a machine represents.
//!
//! Definitions and laws only.
//!
//! Does not know: terms and object code.
#![tactic(auto)]

pub mod theorems;
