//! Decodes and verifies an object code file.
ghost use Rattle.std.specs.Prelude.{◌≡◌, ◌⊎◌, ◌≤◌, length, IfOk, IfErr};
ghost use Rattle.command_inputs.specs.declared.fault.UnitFault.TheVariants.{Memory};
ghost use Rattle.pool_driver.specs.UnitFiles.{IsUnitFault};
ghost use Rattle.pool_driver.specs.UnitOfFile.{IsUnitOfFile, fault_of_bytes, fault_of_code};

use code_semantics::Unit;
use code_verifier::{VerifyFault, verify};
use command_inputs::UnitFault;
use object_code::{CodeFault, decode};
use std::alloc::Global;

/// The unit fault for a fault of the bytes.
fn of_bytes(fault: CodeFault) -> UnitFault
    ensures { result ≡ fault_of_bytes fault }
{
    match fault {
        CodeFault::BadBytes { at } => UnitFault::BadBytes { at },
        CodeFault::NameTwice { place } => UnitFault::NameTwice { place },
        CodeFault::Memory => UnitFault::Memory,
    }
}

/// The unit fault for a file that is not verified.
fn of_code(fault: VerifyFault) -> UnitFault
    ensures { result ≡ fault_of_code fault }
{
    match fault {
        VerifyFault::Header { class } => UnitFault::Header { class },
        VerifyFault::Code { class, method } => UnitFault::Code { class, method },
        VerifyFault::Memory => UnitFault::Memory,
    }
}

/// Decodes an object code file of at most 16 MiB, verifies it, and returns its unit.
/// Reports the first bad byte or duplicate name, then the first bad heading, then the first bad code; or out of memory.
/// The memory is proportional to the bytes.
pub fn read_unit(alloc: Global, bytes: &[u8]) -> Result<Unit, UnitFault>
    requires { length bytes.now ≤ 16777216 }
    ensures ok { IfOk result (λ u. IsUnitOfFile bytes.now u) }
    ensures fault { IfErr result (λ e. (e ≡ Memory) ⊎ IsUnitFault bytes.now e) }
{
    let file = match decode(alloc, bytes) {
        Ok(file) => file,
        Err(fault) => return Err(of_bytes(fault)),
    };
    match verify(alloc, &file) {
        Ok(_) => {}
        Err(fault) => return Err(of_code(fault)),
    }
    Ok(file.unit)
}
