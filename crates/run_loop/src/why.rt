//! The report of `pool why`: the status of each object at the end of a run.
ghost use Rattle.std.specs.Prelude.{◌≡◌, ◌<◌, ◌≤◌, ◌+◌, ◌*◌, ◌++◌, IfOk, OnOk};
ghost use Rattle.mesh_semantics.specs.Config.{Config};
ghost use Rattle.mesh_semantics.specs.Delay.{Delay};
ghost use Rattle.mesh_of_code.specs.Coded.{Placed, coded};
ghost use Rattle.code_semantics.specs.Proper.{IsProper};
ghost use Rattle.code_semantics.specs.Suits.{Suits};
ghost use Rattle.pool_machine.specs.Answers.{MachineRepresents};
ghost use Rattle.wait_report.specs.Report.{report_text};
ghost use Rattle.run_loop.specs.RunOutput.{IsUnderWay};
ghost use Rattle.command_shell.specs.Writing.{Delivers, writing};
ghost use Rattle.run_loop.specs.ReportRows.{row_at, rows_below, rows_in};
ghost use Rattle.run_loop.specs.Shown.{ended, end_text};

use crate::drive::{RunEnd, finish};
use command_line::Show;
use command_shell::Status;
use pool_machine::Machine;
use pool_outside::Sink;
use run_types::{Line, List, Names, Placement, object_name};
use std::alloc::{AllocError, Global};
use wait_report::{ObjectRow, ReportFault, report};

/// The row of the object with this name. None if no object has the name.
fn row_at(machine: &Machine<'_>, name: u32) -> Option<ObjectRow>
    ensures { (c : Config Placed) (d : Delay) → MachineRepresents machine.now c d → result ≡ row_at machine.now.unit c d name }
{
    match machine.class_of(name) {
        Some(class) => match machine.status_of(name) {
            Some(standing) => Some(ObjectRow {
                name,
                class,
                standing,
            }),
            None => None,
        },
        None => None,
    }
}

/// Appends the rows of a node's objects, by rising slot, after the rows of lower nodes. An error means out of memory.
fn push_rows(rows: &mut List<ObjectRow>, machine: &Machine<'_>, node: u32) -> Result<(), AllocError>
    requires mesh { node < machine.now.placement.width * machine.now.placement.height }
    requires few { node < 64 }
    ensures { (c : Config Placed) (d : Delay) → MachineRepresents machine.now c d → rows.old ≡ rows_below machine.now.unit c d (node * 65536)
        → OnOk result (rows.new ≡ rows_below machine.now.unit c d ((node + 1) * 65536)) }
{
    for slot in 0..machine.objects_of(node) {
        match row_at(machine, object_name(node, slot)) {
            Some(row) => match rows.push(row) {
                Ok(()) => {}
                Err(_) => return Err(AllocError),
            },
            None => {}
        }
    }
    Ok(())
}

/// The rows of all objects, by rising names. An error means out of memory.
fn rows_in(
    alloc: Global,
    machine: &Machine<'_>,
    placement: &Placement,
) -> Result<List<ObjectRow>, AllocError>
    requires same { placement.now ≡ machine.now.placement }
    requires width { placement.now.width ≤ 8 }
    requires height { placement.now.height ≤ 8 }
    ensures { (c : Config Placed) (d : Delay) → MachineRepresents machine.now c d → IfOk result (λ rows. rows ≡ rows_in (coded machine.now.unit) d c.objects) }
{
    let mut rows = List::make(alloc);
    for node in 0..placement.width * placement.height {
        match push_rows(&mut rows, machine, node) {
            Ok(()) => {}
            Err(fault) => return Err(fault),
        }
    }
    Ok(rows)
}

/// Writes the status of each object of a machine, the cycles of calls among them, and the end line. Requires a machine
/// that represents a configuration.
/// Returns the status of the run, `WriteFault` if a write fails, or `Memory`, with nothing written, if memory runs out.
pub fn write_report<K: Sink>(
    alloc: Global,
    machine: &Machine<'_>,
    placement: &Placement,
    names: &Names,
    last: RunEnd,
    out: &mut K,
) -> Status
    requires proper { IsProper machine.now.unit }
    requires suits { Suits machine.now.placement machine.now.unit }
    requires same { placement.now ≡ machine.now.placement }
    requires table { names.now ≡ machine.now.unit.names }
    requires under_way { IsUnderWay machine.now }
    ensures { (c : Config Placed) (d : Delay) → MachineRepresents machine.now c d
        → Delivers (writing K.written K.faults out.old out.new)
        (report_text names.now (rows_in (coded machine.now.unit) d c.objects) ++ end_text names.now (Line.End last.end)) (ended last.faulted last.end) result }
{
    let rows = match rows_in(alloc, machine, placement) {
        Ok(rows) => rows,
        Err(AllocError) => return Status::Memory,
    };
    match report(alloc, &rows, names, out) {
        Ok(()) => finish(Show::Report, last, names, out),
        Err(ReportFault::Failed) => Status::WriteFault,
        Err(ReportFault::Memory) => Status::Memory,
    }
}
