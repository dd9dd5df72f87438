//! The faults of a placement.
ghost use Rattle.std.specs.Prelude.{◌≡◌};
ghost use Rattle.placement_reader.specs.declared.fault.PlacementFault.TheVariants.{Memory};

use std::alloc::AllocError;
use thiserror::Error;

/// The fault of a placement. Lines are numbered from 1. The first line with a fault counts, and of its faults the first
/// in this order. `TooLarge` comes only if no line has a fault, and `NoRoute` only if the nodes are not too large.
#[derive(Clone, Copy, Debug, Error)]
pub enum PlacementFault {
    /// The line has none of the forms of a placement's line, or it is the first content line and no `mesh` line. If
    /// there is no content line, `line` is the number of lines plus 1.
    #[error("line {line} has no form of a placement")]
    BadLine { line: u32 },
    /// The line places a class that the unit does not have.
    #[error("line {line} names a class that is not there")]
    UnknownClass { line: u32 },
    /// The line repeats an earlier one: of the same kind, or of the same class, link, or node and goal of a route.
    #[error("line {line} says again what an earlier line said")]
    Repeated { line: u32 },
    /// The line names a node that is not in the mesh.
    #[error("line {line} names a node that is not there")]
    NoSuchNode { line: u32 },
    /// A number is out of its range, or the goal of a route is its node.
    #[error("line {line} has a number out of its range")]
    OutOfRange { line: u32 },
    /// The nodes need this number of words of memory, which is more than 16,777,216. A variable takes 1 word, a frame
    /// 96 words, and a cell 24.
    #[error("the nodes take {words} words")]
    TooLarge { words: u64 },
    /// Out of memory.
    #[error("out of memory")]
    Memory,
    /// The line cuts or routes over the link between two nodes that are not neighbours.
    #[error("line {line} names a link that is not there")]
    NoSuchLink { line: u32 },
    /// The path from `from` to `to` uses a cut link, or visits a node twice. It is the first such pair, ordered by
    /// `from` and then by `to`.
    #[error("no route from {from} to {to}")]
    NoRoute { from: u32, to: u32 },
}

impl From<AllocError> for PlacementFault {
    ghost from_gives = { λ _ e. e ≡ Memory };

    fn from(_error: AllocError) -> PlacementFault {
        PlacementFault::Memory
    }
}
