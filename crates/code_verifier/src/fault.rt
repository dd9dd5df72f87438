//! The errors of the verifier.
ghost use Rattle.std.specs.Prelude.{◌≡◌};
ghost use Rattle.code_verifier.specs.declared.fault.VerifyFault.TheVariants.{Memory};

use std::alloc::AllocError;
use thiserror::Error;

/// The reason why a file is not verified.
#[derive(Clone, Copy, Debug, Error)]
pub enum VerifyFault {
    /// `class` is the number, from 0, of the first class whose heading breaks a rule. It is 0 if there is no class.
    #[error("Header {class}")]
    Header { class: u32 },
    /// The first code that is not well sorted: the number of its class, and of its method there, from 0.
    /// The number of a body is the number of methods of its class.
    #[error("Code {class} {method}")]
    Code { class: u32, method: u32 },
    /// Out of memory. This says nothing about the file.
    #[error("out of memory")]
    Memory,
}

impl From<AllocError> for VerifyFault {
    ghost from_gives = { λ _ e. e ≡ Memory };

    fn from(_error: AllocError) -> VerifyFault {
        VerifyFault::Memory
    }
}
