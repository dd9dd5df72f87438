//! Reports what each object does or waits for at the end of a run, and the cycles of calls among objects.
//!
//! Does not know: how the machine is implemented.
#![tactic(auto)]

mod cycles;
mod rows;
mod text;
pub mod theorems;
mod writing;

pub use rows::ObjectRow;
pub use text::put_row;
pub use writing::{ReportFault, put_each_cycle, report};
