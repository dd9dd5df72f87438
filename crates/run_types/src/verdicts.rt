//! The verdict of the checker on a record.

use crate::args::Args;
use crate::types::{Error, Item, NameId, Value};

/// The next action of an object.
#[derive(Clone, Copy)]
pub enum Redex {
    NoObject,
    Finished,
    Faulted,
    Local,
    New { class: NameId },
    Send { to: u32, method: NameId, args: Args },
    Async { to: u32, method: NameId, args: Args },
    Write { item: Item },
    Answer,
    Select,
    Return { value: Value },
    Waits { on: u32 },
    Fault { error: Error },
}

/// The verdict on a record.
#[derive(Clone, Copy)]
pub enum Verdict {
    /// The record is a run of the program.
    Yes,
    /// The line of this number shows a transition that is not possible. The next action of its object is `redex`.
    No { number: u32, redex: Redex },
    /// The record ends quiet, but an object can make a transition. This is the least such object.
    Moving { object: u32 },
}
