//! The visited set of a search: each configuration once, as a row of numbers, with where its labels lead and who waits
//! in it.
//!
//! Objects are the numbers of their states, and messages are the numbers of their lists.
//!
//! Does not know: queries, and the order in which a search visits configurations.
#![tactic(auto)]

mod awaited;
mod equality;
mod hints;
mod index;
mod keeps;
mod kept_rows;
mod labelling;
mod made;
mod numbered;
mod restored;
mod visited;
mod waiters;
mod writings;

pub use hints::{Hints, has_bit};
pub use keeps::Keeps;
pub use visited::{Entry, Found, VisitedSet};
pub use waiters::{Waiter, Waiters};
pub use writings::{item_of, mark_item, same_item};
// A crate can name a set in a contract only if the types of its fields are exported.
#[doc(hidden)]
pub use index::Index;
#[doc(hidden)]
pub use kept_rows::{Head, Rows};
#[doc(hidden)]
pub use numbered::{Numbered, Queue, Stored};
#[doc(hidden)]
pub use writings::{Node, Writings};
