//! The parts of a machine, its outcomes and its errors.
use code_semantics::Unit;
use run_types::{FullKind, Line, Placement};
use table_routing::Table;

/// What a run does not change: the unit, the placement, and the table of routes.
#[derive(Drop)]
pub(crate) struct Plan<'a> {
    pub unit: &'a Unit,
    pub placement: &'a Placement,
    pub table: Table<'a>,
}

/// The reason that a machine was not made: memory ran out.
#[derive(Clone, Copy)]
pub enum OpenFault {
    Memory,
}

/// The outcome of an event: its line, or nothing, since the step would exceed this limit of this node.
#[derive(Clone, Copy)]
pub enum Outcome {
    Line(Line),
    Full { kind: FullKind, node: u32 },
}

/// The outcome of an event with an output buffer. `Line`: the event was made, its line has this number, and the content
/// of the line is in the buffer. `Full`: nothing was done, since the step would exceed this limit of this node.
#[derive(Clone, Copy)]
pub enum EventOutcome {
    Line { number: u32 },
    Full { kind: FullKind, node: u32 },
}

/// The limit that a step would exceed, and its node. The step then changes nothing.
#[derive(Clone, Copy)]
pub(crate) struct Limit {
    pub kind: FullKind,
    pub node: u32,
}
