//! Reads the inputs, each once, and checks each.
ghost use Rattle.std.specs.Prelude.{◌≡◌, ◌<◌, ◌-◌, ◌^◌, ◌≤◌, IsTrue, length};
ghost use Rattle.pool_driver.specs.UnitOfFile.{IsUnitOfFile};
ghost use Rattle.pool_driver.specs.Readers.{HasPlacementFault, HasScheduleFault, HasUnitFault, IsAcceptedPlacement, IsAcceptedSchedule, IsAcceptedUnit};
ghost use Rattle.pool_driver.specs.Readers.{IsPlacedAs, IsRecordOf, IsScheduledAs, IsUnitOf, Loads, stop_of_placement, stop_of_schedule, stop_of_unit};
ghost use Rattle.command_inputs.specs.Readers.{HasRecordFault, IsAcceptedRecord, Judges, ReadsInput, opening};
ghost use Rattle.command_inputs.specs.Programs.{HasTypedFault, IsTypedProgram};

use crate::converted::{Recorded, judge_record};
use crate::program::code_of;
use crate::unit_reader::read_unit as read_verified;
use code_semantics::Unit;
use command_inputs::{Fault, Input, InputError, UnitFault, read_input, read_parsed, read_program};
use placement_reader::{PlacementFault, read_routed};
use pool_outside::Files;
use run_loop::Loaded;
use schedule_reader::{Schedule, ScheduleFault, read_schedule};
use std::alloc::Global;
use table_routing::RoutedPlacement;

/// The input error for a fault of a placement.
fn placement_stop(fault: PlacementFault) -> InputError
    ensures { result ≡ stop_of_placement fault }
{
    match fault {
        PlacementFault::Memory => InputError::Memory,
        _ => InputError::Refused {
            input: Input::Placement,
            fault: Fault::Placement(fault),
        },
    }
}

/// The input error for a fault of a schedule.
fn schedule_stop(fault: ScheduleFault) -> InputError
    ensures { result ≡ stop_of_schedule fault }
{
    match fault {
        ScheduleFault::Memory => InputError::Memory,
        _ => InputError::Refused {
            input: Input::Schedule,
            fault: Fault::Schedule(fault),
        },
    }
}

/// The input error for a fault of an object code file.
fn unit_stop(fault: UnitFault) -> InputError
    ensures { result ≡ stop_of_unit fault }
{
    match fault {
        UnitFault::Memory => InputError::Memory,
        _ => InputError::Refused {
            input: Input::Unit,
            fault: Fault::Unit(fault),
        },
    }
}

/// Reads an object code file and verifies it. Returns its unit.
/// Reports the first fault of the file, a failed read, or out of memory. Requires that the file may be opened.
pub fn read_file<F: Files>(alloc: Global, files: &mut F, name: &str) -> Result<Unit, InputError>
    requires allowed { IsTrue (F.may files.old (F.opens files.old) name.now) }
    requires countable { F.opens files.old < 2 ^ 64 - 1 }
    ensures { ReadsInput (opening F.told F.may F.opens F.given F.live F.faults files.old files.new) Input.Unit name.now IsAcceptedUnit HasUnitFault IsUnitOfFile result }
{
    let text = match read_input(alloc, files, Input::Unit, name) {
        Ok(text) => text,
        Err(stop) => return Err(stop),
    };
    judge_unit(alloc, &text)
}

/// Reads the placement of a unit, and makes its routes. Reports the first fault of the text, a failed read, or out of
/// memory. Requires that the file may be opened.
pub fn read_placed<F: Files>(
    alloc: Global,
    files: &mut F,
    name: &str,
    unit: &Unit,
) -> Result<RoutedPlacement, InputError>
    requires allowed { IsTrue (F.may files.old (F.opens files.old) name.now) }
    requires countable { F.opens files.old < 2 ^ 64 - 1 }
    ensures { ReadsInput (opening F.told F.may F.opens F.given F.live F.faults files.old files.new) Input.Placement name.now (IsAcceptedPlacement unit.now) (HasPlacementFault unit.now) (IsPlacedAs unit.now) result }
{
    let text = match read_input(alloc, files, Input::Placement, name) {
        Ok(text) => text,
        Err(stop) => return Err(stop),
    };
    judge_placement(alloc, &text, unit)
}

/// Reads the schedule for a placement. Reports the first fault of the text, a failed read, or out of memory.
/// Requires that the file may be opened, and a mesh of 1 to 8 columns and 1 to 8 rows.
pub fn read_scheduled<F: Files>(
    alloc: Global,
    files: &mut F,
    name: &str,
    placement: &RoutedPlacement,
) -> Result<Schedule, InputError>
    requires allowed { IsTrue (F.may files.old (F.opens files.old) name.now) }
    requires countable { F.opens files.old < 2 ^ 64 - 1 }
    requires width { (1 ≤ placement.now.width) × (placement.now.width ≤ 8) }
    requires height { (1 ≤ placement.now.height) × (placement.now.height ≤ 8) }
    ensures { ReadsInput (opening F.told F.may F.opens F.given F.live F.faults files.old files.new) Input.Schedule name.now (IsAcceptedSchedule placement.now) (HasScheduleFault placement.now) (IsScheduledAs placement.now) result }
{
    let text = match read_input(alloc, files, Input::Schedule, name) {
        Ok(text) => text,
        Err(stop) => return Err(stop),
    };
    judge_schedule(alloc, &text, placement)
}

/// Reads a record of either form. Reports the first fault of the text, a failed read, or out of memory.
/// Requires that the file may be opened.
pub fn read_recorded<F: Files>(
    alloc: Global,
    files: &mut F,
    name: &str,
) -> Result<Recorded, InputError>
    requires allowed { IsTrue (F.may files.old (F.opens files.old) name.now) }
    requires countable { F.opens files.old < 2 ^ 64 - 1 }
    ensures { ReadsInput (opening F.told F.may F.opens F.given F.live F.faults files.old files.new) Input.Record name.now IsAcceptedRecord HasRecordFault IsRecordOf result }
{
    let text = match read_input(alloc, files, Input::Record, name) {
        Ok(text) => text,
        Err(stop) => return Err(stop),
    };
    judge_record(alloc, &text)
}

/// Reads a program, checks its classes, and compiles it. Requires that the file may be opened.
/// Reports the first fault of the text or of its classes, a failed read, or out of memory.
pub fn read_unit<F: Files>(alloc: Global, files: &mut F, name: &str) -> Result<Unit, InputError>
    requires allowed { IsTrue (F.may files.old (F.opens files.old) name.now) }
    requires countable { F.opens files.old < 2 ^ 64 - 1 }
    ensures { ReadsInput (opening F.told F.may F.opens F.given F.live F.faults files.old files.new) Input.Program name.now IsTypedProgram HasTypedFault IsUnitOf result }
{
    let parsed = match read_parsed(alloc, files, name) {
        Ok(parsed) => parsed,
        Err(stop) => return Err(stop),
    };
    code_of(alloc, &parsed)
}

/// Reads the bytes of an object code file, and verifies it. At most 16 MiB of bytes.
fn judge_unit(alloc: Global, bytes: &[u8]) -> Result<Unit, InputError>
    requires { length bytes.now ≤ 16777216 }
    ensures { Judges Input.Unit IsAcceptedUnit HasUnitFault IsUnitOfFile bytes.now result }
{
    match read_verified(alloc, bytes) {
        Ok(unit) => Ok(unit),
        Err(fault) => Err(unit_stop(fault)),
    }
}

/// Reads the text of a program, checks its classes, and compiles it. At most 1 MiB of bytes.
fn judge_program(alloc: Global, bytes: &[u8]) -> Result<Unit, InputError>
    requires { length bytes.now ≤ 1048576 }
    ensures { Judges Input.Program IsTypedProgram HasTypedFault IsUnitOf bytes.now result }
{
    let parsed = match read_program(alloc, bytes) {
        Ok(parsed) => parsed,
        Err(stop) => return Err(stop),
    };
    code_of(alloc, &parsed)
}

/// Reads the text of a placement of a unit, and makes its routes. At most 1 MiB of bytes.
fn judge_placement(alloc: Global, bytes: &[u8], unit: &Unit) -> Result<RoutedPlacement, InputError>
    requires { length bytes.now ≤ 1048576 }
    ensures { Judges Input.Placement (IsAcceptedPlacement unit.now) (HasPlacementFault unit.now) (IsPlacedAs unit.now) bytes.now result }
{
    match read_routed(alloc, bytes, unit) {
        Ok(placement) => Ok(placement),
        Err(fault) => Err(placement_stop(fault)),
    }
}

/// Reads the text of a schedule for a placement. At most 1 MiB of bytes, and a mesh of 1 to 8 columns and 1 to 8 rows.
fn judge_schedule(
    alloc: Global,
    bytes: &[u8],
    placement: &RoutedPlacement,
) -> Result<Schedule, InputError>
    requires small { length bytes.now ≤ 1048576 }
    requires width { (1 ≤ placement.now.width) × (placement.now.width ≤ 8) }
    requires height { (1 ≤ placement.now.height) × (placement.now.height ≤ 8) }
    ensures { Judges Input.Schedule (IsAcceptedSchedule placement.now) (HasScheduleFault placement.now) (IsScheduledAs placement.now) bytes.now result }
{
    match read_schedule(alloc, bytes, placement.placement()) {
        Ok(schedule) => Ok(schedule),
        Err(fault) => Err(schedule_stop(fault)),
    }
}

/// Reads the texts of a program, a placement and a schedule, in this order, and returns the inputs of a run.
/// Reports the first text that is not accepted, with its fault, or out of memory. Each text has at most 1 MiB.
pub fn load_texts(
    alloc: Global,
    program: &[u8],
    placement: &[u8],
    schedule: &[u8],
) -> Result<Loaded, InputError>
    requires program { length program.now ≤ 1048576 }
    requires placement { length placement.now ≤ 1048576 }
    requires schedule { length schedule.now ≤ 1048576 }
    ensures { Loads program.now placement.now schedule.now result }
{
    let unit = match judge_program(alloc, program) {
        Ok(unit) => unit,
        Err(stop) => return Err(stop),
    };
    let layout = match judge_placement(alloc, placement, &unit) {
        Ok(layout) => layout,
        Err(stop) => {
            drop(unit);
            return Err(stop);
        }
    };
    let plan = match judge_schedule(alloc, schedule, &layout) {
        Ok(plan) => plan,
        Err(stop) => {
            drop(layout);
            drop(unit);
            return Err(stop);
        }
    };
    Ok(Loaded {
        unit,
        placement: layout,
        schedule: plan,
    })
}
