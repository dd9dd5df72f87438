//! Texts that `write_gathered` writes without taking memory.
ghost use Rattle.std.specs.Prelude.{◌≡◌, true};
ghost use Rattle.object_code.specs.FileBytes.{file_bytes};
ghost use Rattle.object_code.specs.Known.{IsKnownUnit};
ghost use Rattle.object_code.specs.Listing.{listing};
ghost use Rattle.code_semantics.specs.Shaped.{IsShaped, IsShort};
ghost use Rattle.pool_printer.specs.Canonical.{canonical};
ghost use Rattle.pool_syntax.specs.Spelled.{is_spelled};
ghost use Rattle.pool_syntax.specs.TreeOf.{program_of};

use code_semantics::{Unit, UnitFile};
use command_inputs::Parsed;
use object_code::{encode, list_code};
use pool_outside::{Sink, Text, WriteFault};
use pool_printer::print;

/// The canonical text of a program.
#[derive(Clone, Copy)]
pub struct CanonicalText<'a> {
    pub parsed: &'a Parsed,
}

impl Text for CanonicalText<'_> {
    ghost bytes = { λ t. canonical t.parsed.now.names (program_of t.parsed.now.program) };

    ghost writable = { λ t. is_spelled t.parsed.now.names (program_of t.parsed.now.program) ≡ true };

    fn write_to<S: Sink>(&self, sink: &mut S) -> Result<(), WriteFault> {
        print(&self.parsed.program, &self.parsed.names, sink)
    }
}

/// The listing of a unit.
#[derive(Clone, Copy)]
pub struct Listing<'a> {
    pub unit: &'a Unit,
}

impl Text for Listing<'_> {
    ghost bytes = { λ l. listing l.unit.now };

    ghost writable = { λ l. IsKnownUnit l.unit.now };

    fn write_to<S: Sink>(&self, sink: &mut S) -> Result<(), WriteFault> {
        list_code(self.unit, sink)
    }
}

/// The bytes of an object code file.
#[derive(Clone, Copy)]
pub struct FileBytes<'a> {
    pub file: &'a UnitFile,
}

impl Text for FileBytes<'_> {
    ghost bytes = { λ b. file_bytes b.file.now };

    ghost writable = { λ b. IsShaped b.file.now × IsShort b.file.now };

    fn write_to<S: Sink>(&self, sink: &mut S) -> Result<(), WriteFault> {
        encode(self.file, sink)
    }
}
