//! The errors of reading an object code file.
ghost use Rattle.std.specs.Prelude.{◌≡◌};
ghost use Rattle.object_code.specs.declared.code_fault.Unread.TheVariants.{Memory};

use std::alloc::{AllocError, AllocFailed};
use thiserror::Error;

/// The reason why `decode` returns no file.
#[derive(Clone, Copy, Debug, Error)]
pub enum CodeFault {
    /// The bytes do not have the format.
    /// `at` is the place, from 0, of the first byte that the format does not allow there.
    /// If the bytes end too early, `at` is their length.
    #[error("BadBytes at byte {at}")]
    BadBytes { at: u32 },
    /// The bytes have the format, but a name is a duplicate.
    /// `place` is the place, from 0, of the first name that equals an earlier one.
    #[error("NameTwice {place}")]
    NameTwice { place: u32 },
    /// Out of memory. This says nothing about the bytes.
    #[error("out of memory")]
    Memory,
}

/// The reason why a part was not read.
/// `left` is the number of bytes from the first bad byte to the
/// end, with that byte; it is 0 if the bytes end too early. `Memory` is out of memory.
#[derive(Clone, Copy)]
pub(crate) enum Unread {
    BadByte { left: usize },
    Memory,
}

impl From<AllocError> for Unread {
    ghost from_gives = { λ _ e. e ≡ Memory };

    fn from(_: AllocError) -> Unread {
        Unread::Memory
    }
}

impl<T: Drop> From<AllocFailed<T>> for Unread {
    ghost from_gives = { λ _ e. e ≡ Memory };

    fn from(_: AllocFailed<T>) -> Unread {
        Unread::Memory
    }
}
