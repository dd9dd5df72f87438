//! The reasons that a placement has no routing table.
ghost use Rattle.std.specs.Prelude.{◌≡◌};
ghost use Rattle.table_routing.specs.declared.fault.TableFault.TheVariants.{Memory};

use std::alloc::AllocError;
use thiserror::Error;

/// The reason that a placement has no routing table.
#[derive(Clone, Copy, Debug, Error)]
pub enum TableFault {
    /// The path from `from` to `to` uses a cut link, or visits a node twice. It is the first such pair, ordered by
    /// `from` and then by `to`.
    #[error("no route from {from} to {to}")]
    NoRoute { from: u32, to: u32 },
    /// Out of memory.
    #[error("out of memory")]
    Memory,
}

impl From<AllocError> for TableFault {
    ghost from_gives = { λ _ e. e ≡ Memory };

    fn from(_error: AllocError) -> TableFault {
        TableFault::Memory
    }
}
