//! Reads a schedule: a quantum and events, found by number; or its first fault.
//!
//! Does not know: the effect of events.
#![tactic(auto)]

mod collect;
mod entry;
mod event_runs;
mod fault;
mod opening;
mod read;
mod round;
mod schedule;
mod theorems;
mod wire;

pub use fault::ScheduleFault;
pub use read::read_schedule;
pub use schedule::Schedule;
pub use theorems::{events_are_counted, events_are_of_the_mesh};
