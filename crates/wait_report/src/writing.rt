//! The report.
ghost use Rattle.std.specs.Prelude.{◌≡◌, ◌≤◌, ℕ, ◌++◌, length, take, option_map, Err, IfOk, OnOk};
ghost use Rattle.pool_outside.specs.Outside.{Rose, IsProperFront};
ghost use Rattle.wait_report.specs.Calls.{names_of, AreNext, Rising};
ghost use Rattle.wait_report.specs.Cycles.{AreStarts};
ghost use Rattle.wait_report.specs.Report.{cycles_in, cycles_text, report_text, rows_text};
ghost use Rattle.wait_report.specs.KnownRows.{AreKnown};
ghost use Rattle.wait_report.specs.declared.writing.ReportFault.TheVariants.{Failed as SinkFailed, Memory as NoMemory};

use crate::cycles::{put_cycle, starts};
use crate::rows::{ObjectRow, callees, numbers};
use crate::text::put_row;
use pool_outside::{Sink, WriteFault, write_all_of};
use run_types::{List, Names};
use std::alloc::{AllocError, Global};

/// The reason that the report was not written whole: a write failed, or memory ran out.
#[derive(Clone, Copy)]
pub enum ReportFault {
    Failed,
    Memory,
}

/// Appends the lines of the objects.
fn put_rows(text: &mut Vec<u8>, names: &Names, rows: &[ObjectRow]) -> Result<(), AllocError>
    ensures { OnOk result (text.new.items ≡ text.old.items ++ rows_text names.now rows.now) }
{
    for row in rows {
        put_row(text, names, row)?;
    }
    Ok(())
}

/// Appends the lines of the cycles.
fn put_cycles(
    text: &mut Vec<u8>,
    rows: &[ObjectRow],
    numbers: &[u32],
    next: &[Option<usize>],
    starts: &[bool],
) -> Result<(), AllocError>
    requires rising { Rising numbers.now }
    requires numbers { numbers.now ≡ names_of rows.now }
    requires next { AreNext numbers.now rows.now next.now }
    requires starts { AreStarts next.now starts.now }
    requires marks { length starts.now ≡ length next.now }
    ensures { OnOk result (text.new.items ≡ text.old.items ++ cycles_text (cycles_in rows.now)) }
{
    for at in 0..rows.len() {
        if starts[at] {
            put_cycle(text, numbers, next, at)?;
        }
    }
    Ok(())
}

/// Appends a line for each cycle of objects in which each calls the next, in ascending order of its least name.
/// Requires names in ascending order. It makes a binary search for each object, and its other time is linear in the
/// number of objects. Returns `Err` if memory runs out.
pub fn put_each_cycle(
    alloc: Global,
    text: &mut Vec<u8>,
    rows: &[ObjectRow],
) -> Result<(), AllocError>
    requires { Rising (names_of rows.now) }
    ensures { OnOk result (text.new.items ≡ text.old.items ++ cycles_text (cycles_in rows.now)) }
{
    let numbers = numbers(alloc, rows)?;
    let next = callees(alloc, rows, numbers.as_slice())?;
    let starts = starts(alloc, next.as_slice())?;
    put_cycles(
        text,
        rows,
        numbers.as_slice(),
        next.as_slice(),
        starts.as_slice(),
    )
}

/// The text of the report.
fn text_of(alloc: Global, rows: &[ObjectRow], names: &Names) -> Result<Vec<u8>, AllocError>
    requires { Rising (names_of rows.now) }
    ensures { IfOk result (λ t. t.items ≡ report_text names.now rows.now) }
{
    let mut text = Vec::new(alloc);
    put_rows(&mut text, names, rows)?;
    put_each_cycle(alloc, &mut text, rows)?;
    Ok(text)
}

/// Writes a line for each object, by ascending names, and one for each cycle of objects in which each calls the next.
/// Requires names in ascending order, and names of classes and methods that are in the table. The text is complete
/// before it is written. Returns `Memory`, and writes nothing, if memory runs out. Returns `Failed` only if the sink's
/// count of faults rose. A proper prefix of the text was then written.
pub fn report<K: Sink>(
    alloc: Global,
    objects: &List<ObjectRow>,
    names: &Names,
    sink: &mut K,
) -> Result<(), ReportFault>
    requires rising { Rising (names_of objects.now) }
    requires known { AreKnown names.now objects.now }
    ensures whole { OnOk result (K.written sink.new ≡ option_map (λ w. w ++ report_text names.now objects.now) (K.written sink.old)) }
    ensures front { result ≡ Err SinkFailed → IsProperFront (K.written sink.old) (report_text names.now objects.now) (K.written sink.new) }
    ensures failed { result ≡ Err SinkFailed → Rose (K.faults sink.old) (K.faults sink.new) }
    ensures memory { result ≡ Err NoMemory → (K.written sink.new ≡ K.written sink.old) × (K.faults sink.new ≡ K.faults sink.old) }
    ensures no_fault { OnOk result (K.faults sink.new ≡ K.faults sink.old) }
    ensures faults_stay_or_rise { K.faults sink.old ≤ K.faults sink.new }
{
    let text = match text_of(alloc, objects.items(), names) {
        Ok(text) => text,
        Err(AllocError) => return Err(ReportFault::Memory),
    };
    match write_all_of(sink, text.as_slice()) {
        Ok(()) => Ok(()),
        Err(WriteFault) => Err(ReportFault::Failed),
    }
}
