//! The syntax errors of a list of tokens.
ghost use Rattle.std.specs.Prelude.{◌≡◌};
ghost use Rattle.expression_parser.specs.declared.fault.SyntaxFault.TheVariants.{Memory};

use std::alloc::{AllocError, AllocFailed};
use thiserror::Error;

/// The first syntax error of a list of tokens, with the number of its token, counted from 0.
#[derive(Clone, Copy, Debug, Error)]
pub enum SyntaxFault {
    /// The tokens up to this one begin no program, and those before it do.
    #[error("token {token} is not expected")]
    Unexpected { token: u32 },
    /// The depth of this token is the first to exceed 200, and no token up to it is unexpected.
    #[error("token {token} stands too deep")]
    TooDeep { token: u32 },
    /// Memory ran out.
    #[error("out of memory")]
    Memory,
}

impl From<AllocError> for SyntaxFault {
    ghost from_gives = { λ _ e. e ≡ Memory };

    fn from(_: AllocError) -> SyntaxFault {
        SyntaxFault::Memory
    }
}

impl<T: Drop> From<AllocFailed<T>> for SyntaxFault {
    ghost from_gives = { λ _ e. e ≡ Memory };

    fn from(_: AllocFailed<T>) -> SyntaxFault {
        SyntaxFault::Memory
    }
}
