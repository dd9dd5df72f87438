//! The names of objects in a state or in a message, and whether an object waits for another one or does not know it.
//!
//! Does not know: how a search stores or visits configurations.
#![tactic(auto)]

mod awaited;
mod names;
pub mod theorems;

pub use awaited::{awaits, is_calling, is_fit, is_mail_other, is_serving};
pub use names::{OtherNames, are_values_other};
