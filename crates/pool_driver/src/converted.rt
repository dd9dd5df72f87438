//! Reads a record of either form, and writes it in the second form.
ghost use Rattle.std.specs.Prelude.{◌≡◌, ◌≤◌, length, OnErr, OnOk};
ghost use Rattle.std.specs.List.{All};
ghost use Rattle.record_writer.specs.SecondForm.{lines_text2, text2};
ghost use Rattle.record_writer.specs.Writable.{IsWritable};
ghost use Rattle.command_shell.specs.Writing.{Wrote, WroteFront, writing};
ghost use Rattle.pool_driver.specs.Readers.{IsRecordOf, IsShowable};
ghost use Rattle.command_inputs.specs.Readers.{HasRecordFault, IsAcceptedRecord, Judges};

use command_inputs::{Input, InputError, record_stop};
use pool_outside::{Sink, Text, WriteFault};
use run_record::{asks_of, read_record, write_form, write_line2};
use run_types::{Line, List, Names};
use std::alloc::{AllocError, Global};

/// A record: its lines, the request number of each, and the names in them.
#[derive(Drop)]
pub struct Recorded {
    pub lines: List<Line>,
    pub asks: List<u32>,
    pub names: Names,
}

/// Reads a record, and computes the request numbers of its lines. At most 64 MiB of bytes.
/// Reports the first fault of the text, or out of memory.
pub fn judge_record(alloc: Global, bytes: &[u8]) -> Result<Recorded, InputError>
    requires { length bytes.now ≤ 67108864 }
    ensures { Judges Input.Record IsAcceptedRecord HasRecordFault IsRecordOf bytes.now result }
{
    let mut names = Names::make(alloc);
    let lines = match read_record(alloc, bytes, &mut names) {
        Ok(lines) => lines,
        Err(fault) => return Err(record_stop(fault)),
    };
    match asks_of(alloc, &lines) {
        Ok(asks) => Ok(Recorded { lines, asks, names }),
        Err(AllocError) => Err(InputError::Memory),
    }
}

/// Writes lines in the second form, each with its request number. The error is a failed write.
fn write_lines<K: Sink>(
    lines: &[Line],
    asks: &[u32],
    names: &Names,
    out: &mut K,
) -> Result<(), WriteFault>
    requires writable { All (IsWritable names.now) lines.now }
    requires many { length asks.now ≡ length lines.now }
    ensures whole { OnOk result (Wrote (writing K.written K.faults out.old out.new) (lines_text2 names.now lines.now asks.now)) }
    ensures cut { OnErr result (WroteFront (writing K.written K.faults out.old out.new) (lines_text2 names.now lines.now asks.now)) }
    ensures faults_stay_or_rise { K.faults out.old ≤ K.faults out.new }
{
    for place in 0..lines.len() {
        match write_line2(&lines[place], asks[place], names, out) {
            Ok(()) => {}
            Err(fault) => return Err(fault),
        }
    }
    Ok(())
}

/// The text of a record in the second form.
#[derive(Clone, Copy)]
pub struct SecondForm<'a> {
    pub record: &'a Recorded,
}

impl Text for SecondForm<'_> {
    ghost bytes = { λ t. text2 t.record.now.names t.record.now.lines };

    ghost writable = { λ t. IsShowable t.record.now };

    fn write_to<S: Sink>(&self, sink: &mut S) -> Result<(), WriteFault> {
        match write_form(sink) {
            Ok(()) => write_lines(
                self.record.lines.items(),
                self.record.asks.items(),
                &self.record.names,
                sink,
            ),
            Err(fault) => Err(fault),
        }
    }
}
