//! Numbers for messages and for lists of messages, so that a search stores each of them once.
//!
//! Does not know: configurations, and how a search visits them.
#![tactic(auto)]

mod lists;
mod mails;

pub use lists::MailLists;
// A crate can name a table in a contract only if the types of its fields are exported.
#[doc(hidden)]
pub use mails::Mails;
