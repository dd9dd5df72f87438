//! Interprets the code of one object in a heap: a burst of local steps, or the effect of a value, message or choice.
//!
//! Does not know: other objects, mailboxes and nodes.
#![tactic(auto)]

mod choices;
mod hands;
mod interp;
mod moves;
mod read;
mod types;

pub use interp::{
    alts, answer_names, at_hand, burst, can_step_alone, enter, go_on, pick, plain_alt, resume_with,
    to_step,
};
pub use types::{Burst, Hand, Need};
