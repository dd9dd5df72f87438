//! Searches all runs of a program, breadth first, for one that gets stuck or meets a run-time error.
//!
//! Does not know: files, sinks and the text of answers.
#![tactic(auto)]

mod causes;
mod changes;
mod choices;
mod classifier;
mod dead_objects;
mod ends;
mod explored;
mod going_on;
mod outcomes;
mod progress;
mod queries;
mod retracing;
mod scope;
mod searching;
mod settling;

pub use outcomes::{EndKind, Outcome, OutcomeRun, Outcomes, all_outcomes, outcome_run};
pub use progress::Progress;
pub use queries::{Cause, Mailbox, Member, Query, SearchResult, Target};
pub use searching::search;
