//! A list of instructions under construction.
ghost use Rattle.std.specs.Prelude.{◌≡◌, ◌<◌, ◌^◌, [], ◌∷◌, ◌++◌, length, slice_set, OnOk};

use code_semantics::Instr;
use run_types::List;
use std::alloc::{AllocError, Global};

/// The instructions so far. They are fewer than 2^32, so each place, and the one after the last, fits a `u32`.
#[derive(Drop)]
pub struct Builder {
    pub code: List<Instr>,
    pub ghost short: { length code < 2 ^ 32 },
}

impl Builder {
    /// No instructions. It takes no memory.
    pub fn make(alloc: Global) -> Builder
        ensures { result.code ≡ [] }
    {
        Builder {
            code: List::make(alloc),
        }
    }

    /// The place of the next instruction.
    pub fn place(&self) -> u32
        ensures { result ≡ length self.now.code }
    {
        self.code.items().len() as u32
    }

    /// Appends an instruction. Reports an error if out of memory, or if there are 2^32 - 1 instructions already.
    pub fn put(&mut self, instr: Instr) -> Result<(), AllocError>
        ensures { OnOk result (self.new.code ≡ self.old.code ++ instr ∷ []) }
    {
        if self.place() == u32::MAX {
            return Err(AllocError);
        }
        match self.code.push(instr) {
            Ok(()) => Ok(()),
            Err(_) => Err(AllocError),
        }
    }

    /// Replaces the instruction at a place.
    pub fn set(&mut self, place: u32, instr: Instr)
        requires { place < length self.old.code }
        ensures { self.new.code ≡ slice_set self.old.code place instr }
    {
        self.code.set(place as usize, instr);
    }

    /// The instructions.
    pub fn done(self) -> List<Instr>
        ensures code { result ≡ self.code }
        ensures short { length result < 2 ^ 32 }
    {
        self.code
    }
}
