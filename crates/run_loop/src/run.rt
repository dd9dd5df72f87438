//! Makes a run of loaded inputs, and writes its record, output, report or counts.
ghost use Rattle.std.specs.Prelude.{◌≡◌, ◌++◌, IfOk};
ghost use Rattle.run_loop.specs.FinishedRun.{HasDriven};
ghost use Rattle.run_loop.specs.RunOutput.{IsLoaded, shown_record};
ghost use Rattle.run_loop.specs.Loading.{lines_of, run_text};
ghost use Rattle.run_loop.specs.Shown.{counts_text, end_text, ended, ring_text, status_of};
ghost use Rattle.command_shell.specs.Writing.{Delivers, writing};

use crate::drive::{RunEnd, drive, finish, make_table};
use crate::loaded::Loaded;
use crate::why::write_report;
use command_inputs::{push_count, push_place};
use command_line::Show;
use command_shell::Status;
use pool_machine::{Machine, OpenFault};
use pool_outside::{Sink, WriteFault, write_all_of};
use run_types::{Line, Names};
use std::alloc::{AllocError, Global};
use table_routing::Table;

/// A machine after its run, and the end of the run.
#[derive(Drop)]
pub struct FinishedRun<'a> {
    pub machine: Machine<'a>,
    pub last: RunEnd,
}

/// Makes the machine and the table of requests, and then the run. It takes all memory before it writes the first byte.
/// The error is the status of the call: `Memory` with nothing written, or `WriteFault`.
fn run_loaded<'a, K: Sink>(
    alloc: Global,
    out: &mut K,
    show: Show,
    loaded: &'a Loaded,
) -> Result<FinishedRun<'a>, Status>
    requires { IsLoaded loaded.now.unit loaded.now.placement loaded.now.schedule }
    ensures { HasDriven show loaded.now (writing K.written K.faults out.old out.new) result }
{
    let mut asks = match make_table(alloc, loaded) {
        Ok(asks) => asks,
        Err(AllocError) => return Err(Status::Memory),
    };
    let lossy = loaded.schedule.lossy();
    let table = Table::of(&loaded.placement);
    match Machine::on_table(alloc, &loaded.unit, table, lossy) {
        Ok(mut machine) => match drive(
            &mut machine,
            &mut asks,
            &loaded.unit.names,
            &loaded.schedule,
            show,
            out,
        ) {
            Ok(last) => Ok(FinishedRun { machine, last }),
            Err(WriteFault) => Err(Status::WriteFault),
        },
        Err(OpenFault::Memory) => Err(Status::Memory),
    }
}

/// Makes a run, and writes it in the form of `show`, with `Report` the end line alone. Returns the status of the run,
/// `WriteFault` if a write fails, or `Memory`, with nothing written, if memory runs out.
pub fn write_run<K: Sink>(alloc: Global, out: &mut K, show: Show, loaded: &Loaded) -> Status
    requires { IsLoaded loaded.now.unit loaded.now.placement loaded.now.schedule }
    ensures { Delivers (writing K.written K.faults out.old out.new) (shown_record show loaded.now.unit.names (lines_of loaded.now)) (status_of (lines_of loaded.now)) result }
{
    match run_loaded(alloc, out, show, loaded) {
        Ok(ran) => finish(show, ran.last, &loaded.unit.names, out),
        Err(status) => status,
    }
}

/// Makes a run, and writes the status of each object at its end, the cycles of calls among them, and the end line.
/// Returns the status of the run, `WriteFault` if a write fails, or `Memory`, with nothing written, if memory runs out.
pub fn write_why<K: Sink>(alloc: Global, out: &mut K, loaded: &Loaded) -> Status
    requires { IsLoaded loaded.now.unit loaded.now.placement loaded.now.schedule }
    ensures { Delivers (writing K.written K.faults out.old out.new) (run_text Show.Report loaded.now) (status_of (lines_of loaded.now)) result }
{
    match run_loaded(alloc, out, Show::Report, loaded) {
        Ok(ran) => write_report(
            alloc,
            &ran.machine,
            loaded.placement.placement(),
            &loaded.unit.names,
            ran.last,
            out,
        ),
        Err(status) => status,
    }
}

/// The lines of the counts of a run: events, transitions and moves. An error means out of memory.
fn counts_of(alloc: Global, machine: &Machine<'_>) -> Result<Vec<u8>, AllocError>
    ensures { IfOk result (λ t. t.items ≡ counts_text machine.now.done machine.now.transitions machine.now.moves) }
{
    let mut text = Vec::new(alloc);
    push_place(&mut text, b"events ", machine.done())?;
    push_count(&mut text, b"\ntransitions ", machine.transitions())?;
    push_count(&mut text, b"\nmoves ", machine.moves())?;
    text.extend_from_slice(b"\n")?;
    Ok(text)
}

/// Writes the counts of a finished run, and its end line.
fn write_counts<K: Sink>(
    alloc: Global,
    machine: &Machine<'_>,
    names: &Names,
    last: RunEnd,
    out: &mut K,
) -> Status
    ensures { Delivers (writing K.written K.faults out.old out.new)
        (counts_text machine.now.done machine.now.transitions machine.now.moves ++ end_text names.now (Line.End last.end)) (ended last.faulted last.end) result }
{
    let counts = match counts_of(alloc, machine) {
        Ok(counts) => counts,
        Err(AllocError) => return Status::Memory,
    };
    match write_all_of(out, &counts) {
        Ok(()) => finish(Show::Report, last, names, out),
        Err(WriteFault) => Status::WriteFault,
    }
}

/// Makes a run, and writes its counts of events, transitions and moves, and its end line. Returns the status of the
/// run, `WriteFault` if a write fails, or `Memory`, with nothing written, if memory runs out.
pub fn write_ring<K: Sink>(alloc: Global, out: &mut K, loaded: &Loaded) -> Status
    requires { IsLoaded loaded.now.unit loaded.now.placement loaded.now.schedule }
    ensures { Delivers (writing K.written K.faults out.old out.new) (ring_text loaded.now.unit.names (lines_of loaded.now)) (status_of (lines_of loaded.now)) result }
{
    match run_loaded(alloc, out, Show::Report, loaded) {
        Ok(ran) => write_counts(alloc, &ran.machine, &loaded.unit.names, ran.last, out),
        Err(status) => status,
    }
}
