//! The errors of the compiler.
ghost use Rattle.std.specs.Prelude.{◌≡◌};
ghost use Rattle.pool_compile.specs.declared.fault.CompileFault.TheVariants.{Memory};

use std::alloc::AllocError;
use thiserror::Error;

/// The reason why `compile` returns no unit.
#[derive(Clone, Copy, Debug, Error)]
pub enum CompileFault {
    /// Out of memory: a list could not grow, or a body or a method has 2^32 instructions or more.
    #[error("out of memory")]
    Memory,
}

impl From<AllocError> for CompileFault {
    ghost from_gives = { λ _ e. e ≡ Memory };

    fn from(_error: AllocError) -> CompileFault {
        CompileFault::Memory
    }
}
