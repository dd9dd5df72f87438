//! Reads the lines of a record.
ghost use Rattle.std.specs.Prelude.{◌≡◌, ◌<◌, ◌-◌, ◌^◌, ◌≤◌, IsTrue, length};
ghost use Rattle.command_inputs.specs.Readers.{AreLinesOf, AreNamedLinesOf, HasRecordFault, IsAcceptedRecord, Judges, ReadsInput, opening, stop_of_record};

use crate::fault::{Fault, Input, InputError};
use crate::inputs::read_input;
use pool_outside::Files;
use run_record::{RecordFault, read_record};
use run_types::{Line, List, Names};
use std::alloc::{AllocError, Global};

/// The error of a refused record.
pub fn record_stop(fault: RecordFault) -> InputError
    ensures { result ≡ stop_of_record fault }
{
    match fault {
        RecordFault::Memory => InputError::Memory,
        _ => InputError::Refused {
            input: Input::Record,
            fault: Fault::Record(fault),
        },
    }
}

/// The lines of a record, and the names after it.
#[derive(Drop)]
pub struct NamedLines {
    pub lines: List<Line>,
    pub names: Names,
}

/// Reads the lines of a record with a copy of these names. Requires at most 64 MiB of bytes and fewer than 2^31 names.
/// Returns `Refused` with the first fault of the text, or `Memory` if memory runs out.
fn judge_named_lines(alloc: Global, bytes: &[u8], names: &Names) -> Result<NamedLines, InputError>
    requires small { length bytes.now ≤ 67108864 }
    requires few { length names.now < 2 ^ 31 }
    ensures { Judges Input.Record IsAcceptedRecord HasRecordFault (AreNamedLinesOf names.now) bytes.now result }
{
    let mut copy = match names.copy() {
        Ok(copy) => copy,
        Err(AllocError) => return Err(InputError::Memory),
    };
    match read_record(alloc, bytes, &mut copy) {
        Ok(lines) => Ok(NamedLines { lines, names: copy }),
        Err(fault) => Err(record_stop(fault)),
    }
}

/// Reads the lines of a record of either form with a copy of these names. Returns the errors of `read_input`, and
/// `Refused` with the first fault of the text. Requires that the file may be opened, and fewer than 2^31 names.
pub fn read_named_lines<F: Files>(
    alloc: Global,
    files: &mut F,
    name: &str,
    names: &Names,
) -> Result<NamedLines, InputError>
    requires allowed { IsTrue (F.may files.old (F.opens files.old) name.now) }
    requires countable { F.opens files.old < 2 ^ 64 - 1 }
    requires few { length names.now < 2 ^ 31 }
    ensures { ReadsInput (opening F.told F.may F.opens F.given F.live F.faults files.old files.new) Input.Record name.now IsAcceptedRecord HasRecordFault (AreNamedLinesOf names.now) result }
{
    let text = match read_input(alloc, files, Input::Record, name) {
        Ok(text) => text,
        Err(stop) => return Err(stop),
    };
    judge_named_lines(alloc, &text, names)
}

/// Reads the lines of a record as `read_named_lines` does, without the names after it.
pub fn read_lines<F: Files>(
    alloc: Global,
    files: &mut F,
    name: &str,
    names: &Names,
) -> Result<List<Line>, InputError>
    requires allowed { IsTrue (F.may files.old (F.opens files.old) name.now) }
    requires countable { F.opens files.old < 2 ^ 64 - 1 }
    requires few { length names.now < 2 ^ 31 }
    ensures { ReadsInput (opening F.told F.may F.opens F.given F.live F.faults files.old files.new) Input.Record name.now IsAcceptedRecord HasRecordFault (AreLinesOf names.now) result }
{
    match read_named_lines(alloc, files, name, names) {
        Ok(read) => Ok(read.lines),
        Err(stop) => Err(stop),
    }
}
