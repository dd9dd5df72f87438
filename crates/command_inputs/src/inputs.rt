//! Reads an input once and whole, and checks a program.
ghost use Rattle.std.specs.Prelude.{◌≡◌, ◌<◌, ◌-◌, ◌^◌, IsTrue};
ghost use Rattle.command_inputs.specs.Inputs.{limit_of};
ghost use Rattle.command_inputs.specs.Programs.{IsFaultOfText, HasTypedFault, IsTypedProgram};
ghost use Rattle.command_inputs.specs.Readers.{HasNoFault, IsAnyProgram, IsAnyText, IsProgramOf, IsTypedProgramOf, ReadsInput, opening};

use crate::fault::{Fault, Input, InputError};
use crate::program::{Parsed, judge_classes, read_program};
use pool_outside::{Files, ReadFault, read_whole};
use std::alloc::Global;

/// The largest number of bytes of an input.
fn limit_of(input: Input) -> usize
    ensures { result ≡ limit_of input }
{
    match input {
        Input::Program | Input::Placement | Input::Schedule => 1048576,
        Input::Record => 67108864,
        Input::Unit => 16777216,
    }
}

/// Reads an input whole, and opens its file once. Requires that the open is allowed. Returns `Refused` with `TooLong`
/// if the input has more bytes than its limit, `Unread` if the open or a read failed, and `Memory` if memory runs out.
pub fn read_input<F: Files>(
    alloc: Global,
    files: &mut F,
    input: Input,
    name: &str,
) -> Result<Vec<u8>, InputError>
    requires allowed { IsTrue (F.may files.old (F.opens files.old) name.now) }
    requires countable { F.opens files.old < 2 ^ 64 - 1 }
    ensures { ReadsInput (opening F.told F.may F.opens F.given F.live F.faults files.old files.new) input name.now IsAnyText HasNoFault (λ s text. text.items ≡ s) result }
{
    match read_whole(alloc, files, name, limit_of(input)) {
        Ok(text) => Ok(text),
        Err(ReadFault::Failed) => Err(InputError::Unread { input }),
        Err(ReadFault::TooLong) => Err(InputError::Refused {
            input,
            fault: Fault::TooLong,
        }),
        Err(ReadFault::Memory) => Err(InputError::Memory),
    }
}

/// Reads and parses a program. Returns the errors of `read_input`, and `Refused` with the first fault of its tokens or
/// its grammar.
pub fn read_parsed<F: Files>(alloc: Global, files: &mut F, name: &str) -> Result<Parsed, InputError>
    requires allowed { IsTrue (F.may files.old (F.opens files.old) name.now) }
    requires countable { F.opens files.old < 2 ^ 64 - 1 }
    ensures { ReadsInput (opening F.told F.may F.opens F.given F.live F.faults files.old files.new) Input.Program name.now IsAnyProgram IsFaultOfText IsProgramOf result }
{
    // A `match` instead of `?` keeps the clause of the error.
    let text = match read_input(alloc, files, Input::Program, name) {
        Ok(text) => text,
        Err(stop) => return Err(stop),
    };
    read_program(alloc, &text)
}

/// Reads, parses and checks a program. Returns the errors of `read_parsed`, and `Refused` with the least class fault.
pub fn read_typed<F: Files>(alloc: Global, files: &mut F, name: &str) -> Result<Parsed, InputError>
    requires allowed { IsTrue (F.may files.old (F.opens files.old) name.now) }
    requires countable { F.opens files.old < 2 ^ 64 - 1 }
    ensures { ReadsInput (opening F.told F.may F.opens F.given F.live F.faults files.old files.new) Input.Program name.now IsTypedProgram HasTypedFault IsTypedProgramOf result }
{
    // A `match` instead of `?` keeps the clause of the error.
    let parsed = match read_parsed(alloc, files, name) {
        Ok(parsed) => parsed,
        Err(stop) => return Err(stop),
    };
    match judge_classes(alloc, &parsed) {
        Ok(_) => {}
        Err(stop) => return Err(stop),
    }
    Ok(parsed)
}
