//! The outcomes of a node, and the output buffer of a step.
ghost use Rattle.std.specs.Prelude.{◌≡◌};
ghost use Rattle.run_types.specs.declared.types.What.TheVariants as W;

use code_semantics::Unit;
use rendezvous_protocol::Packet;
use run_types::{Args, FullKind, NameId, Placement, Value, What};

/// What a step of a node reads and does not change: the unit, the placement, and the number of packets on the links
/// that leave the node.
#[derive(Clone, Copy)]
pub struct NodePlan<'a> {
    pub unit: &'a Unit,
    pub placement: &'a Placement,
    pub leaving: u32,
}

/// A message that an object sends.
#[derive(Clone, Copy)]
pub struct Sending {
    pub to: u32,
    pub method: NameId,
    pub args: Args,
}

/// A value that a method returns to its caller, whose request has this number.
#[derive(Clone, Copy)]
pub struct Returning {
    pub caller: u32,
    pub number: u32,
    pub value: Value,
}

/// The output buffer of a step: the content of its line, and the packet that leaves the node.
#[derive(Drop)]
pub struct StepOutput {
    pub what: What,
    pub packet: Packet,
}

impl StepOutput {
    /// Returns a buffer whose line is idle.
    pub fn make() -> StepOutput
        ensures { result.what ≡ W.Idle }
    {
        StepOutput {
            what: What::Idle,
            packet: Packet::default(),
        }
    }
}

/// The outcome of a turn or a receipt. `Idle`: no object is ready. `Line`: a step was made, and its line is in the
/// output buffer. `Leaves`: a step was made, and the packet in the buffer leaves the node. `Full`: nothing was done,
/// since the step would exceed this limit. Anything else in the buffer has no meaning.
#[derive(Clone, Copy)]
pub enum TurnOutcome {
    Idle,
    Line,
    Leaves,
    Full { kind: FullKind },
}

/// The outcome of a turn or a receipt as one value: no object is ready; a step with its line, and the packet that
/// leaves the node, if one does; or nothing, since the step would exceed this limit.
#[derive(Clone, Copy)]
pub enum Act {
    Idle,
    Line { what: What, packet: Option<Packet> },
    Full { kind: FullKind },
}
