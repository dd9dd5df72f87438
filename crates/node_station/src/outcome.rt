//! The outcomes of a station, and the reasons that it ends.
use run_types::FullKind;

/// The outcome of an input. `Silent`: nothing was done. `Line`: a step was made, and the content of its line is in the
/// output buffer. `Puts`: the same, and the packet in the buffer was put on the link to the neighbour `to`. `Full`:
/// nothing was done, since the step would exceed this limit of the node. Anything else in the buffer has no meaning.
#[derive(Clone, Copy)]
pub enum StationOutcome {
    Silent,
    Line,
    Puts { to: u32 },
    Full { kind: FullKind },
}

/// The reason that a station ends.
#[derive(Clone, Copy)]
pub enum StationFault {
    /// A packet cannot be received: it goes to no node of the mesh, its class does not exist, or its receiver has no
    /// slot.
    Unfit,
    /// A step posts a packet that goes to no other node of the mesh. The names of its objects came from a neighbour.
    Strays,
    /// The numbers are used up: the station has made 2^64 - 1 steps, or its objects have made 2^32 - 1 of one class.
    Spent,
}
