//! The faults of a schedule.
ghost use Rattle.std.specs.Prelude.{◌≡◌};
ghost use Rattle.schedule_reader.specs.declared.fault.ScheduleFault.TheVariants.{Memory};

use std::alloc::AllocError;
use thiserror::Error;

/// The fault of a schedule. Lines are numbered from 1. The first line with a fault counts, and of its faults the first
/// in this order. `TooManyEvents` comes only if no line has a fault.
#[derive(Clone, Copy, Debug, Error)]
pub enum ScheduleFault {
    /// The line has none of the forms of a schedule's line. The first content line must be a `quantum` line, and no
    /// other may be one. Only the second content line may be `wires lossy`, and only after it may a line name an event
    /// of wires. If there is no content line, `line` is the number of lines plus 1.
    #[error("line {line} has no form of a schedule")]
    BadLine { line: u32 },
    /// A node of the line is not in the mesh.
    #[error("line {line} names a node that is not there")]
    NoSuchNode { line: u32 },
    /// The two nodes of the line are not neighbours, or the link between them is cut.
    #[error("line {line} names a link that is not there")]
    NoSuchLink { line: u32 },
    /// A quantum that is not from 1 to 10,000, or a count that is not from 1 to 2,000,000.
    #[error("line {line} has a number out of its range")]
    OutOfRange { line: u32 },
    /// All lines together have this number of events, which is more than 2,000,000.
    #[error("there are {count} events")]
    TooManyEvents { count: u64 },
    /// Out of memory.
    #[error("out of memory")]
    Memory,
}

impl From<AllocError> for ScheduleFault {
    ghost from_gives = { λ _ e. e ≡ Memory };

    fn from(_error: AllocError) -> ScheduleFault {
        ScheduleFault::Memory
    }
}
