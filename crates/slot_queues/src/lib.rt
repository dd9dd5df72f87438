//! The messages of the slots of a node that stand behind the early ones: a queue for each slot and method, found by a
//! hash.
//!
//! Does not know: the early messages of a slot, and when an object answers a message.
#![tactic(auto)]

mod behind;
mod lanes;
mod queues;

pub use behind::Behind;
pub use lanes::is_one_of;
use run_types::{Args, NameId};
// A crate can name the queues in a contract only if the types of their fields are exported.
#[doc(hidden)]
pub use lanes::{Lanes, Stamped};
#[doc(hidden)]
pub use queues::Queues;

/// A message to an object. `from` is the sender's name. `call` is the request number of a synchronous call, and None
/// for an asynchronous message.
#[derive(Clone, Copy)]
pub struct Message {
    pub from: u32,
    pub method: NameId,
    pub args: Args,
    pub call: Option<u32>,
}
