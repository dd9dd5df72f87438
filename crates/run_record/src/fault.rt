//! The faults of a record.
ghost use Rattle.std.specs.Prelude.{◌≡◌};
ghost use Rattle.run_record.specs.declared.fault.RecordFault.TheVariants.{Memory};

use std::alloc::AllocError;
use thiserror::Error;

/// The fault of a record. Lines are numbered from 1, and the first line with a fault counts.
#[derive(Clone, Copy, Debug, Error)]
pub enum RecordFault {
    /// The line has no form of a record's line. Or there is no end line, and `line` is the number of the last line plus
    /// 1.
    #[error("line {line} has no form of a record")]
    BadLine { line: u32 },
    /// The line is out of order. The number of an event must be the last number plus 1. In a record that is read whole
    /// it is at most 2,000,000. The number of the end must be the number of events. No line may come after the end.
    #[error("line {line} is out of order")]
    OutOfOrder { line: u32 },
    /// The line carries another request number than that of the post that it answers.
    #[error("line {line} answers another request")]
    WrongAsk { line: u32 },
    /// Out of memory.
    #[error("out of memory")]
    Memory,
}

impl From<AllocError> for RecordFault {
    ghost from_gives = { λ _ e. e ≡ Memory };

    fn from(_error: AllocError) -> RecordFault {
        RecordFault::Memory
    }
}
