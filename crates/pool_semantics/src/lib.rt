//! A stepper for the transition relation: makes any transition by its label, and lists the labels that a search must
//! try.
//!
//! Does not know: nodes, records and the configurations that a search has visited.
#![tactic(auto)]

mod plain;

pub use message_queue::Mail;
pub use plain::{Plain, Refuse, State, Waiting, agent, post, push_labels, redex_args, unpost};
