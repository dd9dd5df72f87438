//! Finds the objects that wait in the stepper's configuration, and writes their lines.
//!
//! Does not know: how the configuration was reached.
#![tactic(auto)]

mod lines;
mod waiting;

pub use lines::push_waiting;
pub use waiting::waiting_rows;
