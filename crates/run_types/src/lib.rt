//! The types of a run and its record: values, labels, events, lines, placements, names, meshes and their
//! paths.
//!
//! Does not know: programs and the formats of texts.
#![tactic(auto)]

mod args;
mod frames;
mod list;
mod names;
mod object_names;
mod types;
mod verdicts;

pub use args::Args;
pub use frames::{CodeObject, Frame};
pub use list::List;
pub use names::Names;
pub use object_names::{node_of, object_name, slot_of};
pub use types::{
    End, Error, Event, FullKind, Item, Kind, Label, Line, LinkId, NameId, Op, Place, Placement,
    Route, Serves, Standing, Value, What, WireAct,
};
pub use verdicts::{Redex, Verdict};
