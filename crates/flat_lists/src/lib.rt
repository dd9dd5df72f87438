//! Lists of small things that are copied, one after another in one vector, and numbers in units of 16 bits.
//!
//! Does not know: what is in the lists.
#![tactic(auto)]

mod lists;
mod packed;

pub use lists::FlatLists;
pub use packed::{is_packed, pack, unpack};
