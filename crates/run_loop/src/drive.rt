//! Runs a machine over a schedule, and writes each line when its event is made.
ghost use Rattle.std.specs.Prelude.{◌≡◌, ℕ, ◌||◌, [], OnOk, OnErr, IfOk, is_some};
ghost use Rattle.run_types.specs.declared.types.Event.{Event as OneEvent};
ghost use Rattle.run_types.specs.declared.types.Line.TheVariants as R;
ghost use Rattle.mesh_semantics.specs.Config.{Config};
ghost use Rattle.mesh_semantics.specs.Delay.{Delay};
ghost use Rattle.mesh_of_code.specs.Coded.{Placed};
ghost use Rattle.pool_machine.specs.Answers.{MachineRepresents};
ghost use Rattle.record_writer.specs.WrittenText.{writes_of};
ghost use Rattle.record_writer.specs.Writable.{AreShort, IsWritable, id_of_what};
ghost use Rattle.run_loop.specs.RunOutput.{Drives, HasBegun, IsLoaded, IsTableOf, item_of, shown_first, shown_line, tells_fault};
ghost use Rattle.command_shell.specs.Writing.{Wrote, WroteFront, writing, Writes};
ghost use Rattle.run_loop.specs.Shown.{ended, shows_fault};

use crate::loaded::Loaded;
use command_line::Show;
use command_shell::Status;
use pool_machine::{EventOutcome, Machine, StepOutput};
use pool_outside::{Sink, WriteFault};
use record_writer::write_event2;
use run_record::{Asks, write_form, write_item, write_line, write_line2};
use run_types::{End, Event, Item, Label, Line, Names, What};
use schedule_reader::Schedule;
use std::alloc::{AllocError, Global};

/// The end of a run, and whether the run met a run-time error.
#[derive(Clone, Copy)]
pub struct RunEnd {
    pub faulted: bool,
    pub end: End,
}

/// The item that a step writes. None if the step writes nothing.
fn item_of(what: &What) -> Option<Item>
    ensures { result ≡ item_of what.now }
{
    match what {
        What::Step {
            label: Label::Write { item, .. },
            ..
        } => Some(*item),
        _ => None,
    }
}

/// Writes the item that the step wrote, without quotes, if there is one.
fn show_writes<K: Sink>(what: &What, names: &Names, out: &mut K) -> Result<(), WriteFault>
    requires { AreShort names.now (id_of_what what.now) }
    ensures whole { (n : ℕ) (e : OneEvent) → OnOk result (Wrote (writing K.written K.faults out.old out.new) (writes_of names.now (R.Event n e what.now))) }
    ensures cut { (n : ℕ) (e : OneEvent) → OnErr result (WroteFront (writing K.written K.faults out.old out.new) (writes_of names.now (R.Event n e what.now))) }
{
    match item_of(what) {
        Some(item) => write_item(item, names, out),
        None => Ok(()),
    }
}

/// Writes the text before the first line.
fn show_first<K: Sink>(show: Show, out: &mut K) -> Result<(), WriteFault>
    ensures whole { OnOk result (Wrote (writing K.written K.faults out.old out.new) (shown_first show)) }
    ensures cut { OnErr result (WroteFront (writing K.written K.faults out.old out.new) (shown_first show)) }
{
    match show {
        Show::Record => write_form(out),
        Show::Writes | Show::Report => Ok(()),
    }
}

/// Writes an event's line, with this request number, in the form of `show`.
fn show_event<K: Sink>(
    show: Show,
    number: u32,
    event: Event,
    what: &What,
    ask: u32,
    names: &Names,
    out: &mut K,
) -> Result<(), WriteFault>
    requires { IsWritable names.now (R.Event number event what.now) }
    ensures whole { OnOk result (Wrote (writing K.written K.faults out.old out.new) (shown_line show names.now ask (R.Event number event what.now))) }
    ensures cut { OnErr result (WroteFront (writing K.written K.faults out.old out.new) (shown_line show names.now ask (R.Event number event what.now))) }
{
    match show {
        Show::Record => write_event2(number, event, what, ask, names, out),
        Show::Writes => show_writes(what, names, out),
        Show::Report => Ok(()),
    }
}

/// Writes the end line.
fn show_end<K: Sink>(show: Show, end: End, names: &Names, out: &mut K) -> Result<(), WriteFault>
    ensures whole { OnOk result (Wrote (writing K.written K.faults out.old out.new) (shown_line show names.now 0 (Line.End end))) }
    ensures cut { OnErr result (WroteFront (writing K.written K.faults out.old out.new) (shown_line show names.now 0 (Line.End end))) }
{
    match show {
        Show::Record => write_line2(&Line::End(end), 0, names, out),
        Show::Writes => write_line(&Line::End(end), names, out),
        Show::Report => write_line(&Line::End(end), names, out),
    }
}

/// Whether a step shows a run-time error.
fn shows_fault(what: &What) -> bool
    ensures { result ≡ shows_fault what.now }
{
    matches!(
        what,
        What::Step {
            label: Label::Fault { .. },
            ..
        }
    )
}

/// Whether the run has met a run-time error, after one more step.
fn fault_so_far(faulted: bool, what: &What) -> bool
    ensures { (n : ℕ) (e : OneEvent) → result ≡ (faulted || tells_fault (R.Event n e what.now)) }
{
    faulted || shows_fault(what)
}

/// The status of a run with this end. `faulted` says whether the run met a run-time error.
fn status_of_end(faulted: bool, end: End) -> Status
    ensures { result ≡ ended faulted end }
{
    match end {
        End::Quiet { .. } if faulted => Status::DoneFaulted,
        End::Quiet { .. } => Status::Done,
        End::Schedule { .. } => Status::ScheduleOver,
        End::Full { .. } => Status::Full,
    }
}

/// Writes the end line in the form of `show`. Returns the status of the run, or `WriteFault` if the write fails.
pub fn finish<K: Sink>(show: Show, last: RunEnd, names: &Names, out: &mut K) -> Status
    ensures { Writes (writing K.written K.faults out.old out.new) (shown_line show names.now 0 (Line.End last.end)) (ended last.faulted last.end) result }
{
    match show_end(show, last.end, names, out) {
        Ok(()) => status_of_end(last.faulted, last.end),
        Err(WriteFault) => Status::WriteFault,
    }
}

/// An empty table of the requests that the lines of a run post. An error means out of memory.
pub fn make_table(alloc: Global, loaded: &Loaded) -> Result<Asks, AllocError>
    requires { IsLoaded loaded.now.unit loaded.now.placement loaded.now.schedule }
    ensures { IfOk result (λ a. IsTableOf loaded.now.placement a []) }
{
    let placement = loaded.placement.placement();
    Asks::make(alloc, placement.width * placement.height, placement.objects)
}

/// Makes the events of a schedule until all is quiet, a node is full or the schedule ends. Requires a machine at its
/// start. Writes each line in the form of `show`, except the end line. The error comes at the first write that fails.
pub fn drive<K: Sink>(
    machine: &mut Machine<'_>,
    asks: &mut Asks,
    names: &Names,
    schedule: &Schedule,
    show: Show,
    out: &mut K,
) -> Result<RunEnd, WriteFault>
    requires loaded { IsLoaded machine.old.unit machine.old.placement schedule.now }
    requires table { names.now ≡ machine.old.unit.names }
    requires fresh { machine.old.done ≡ 0 }
    requires unmoved { machine.old.moves ≡ 0 }
    requires still { machine.old.transitions ≡ 0 }
    requires wired { is_some machine.old.wires ≡ schedule.now.lossy }
    requires begun { HasBegun machine.old schedule.now }
    requires posts { IsTableOf machine.old.placement asks.old [] }
    ensures { (c : Config Placed) (d : Delay) → MachineRepresents machine.old c d
        → Drives show machine.old.unit machine.old.placement schedule.now c d machine.new
        (writing K.written K.faults out.old out.new) result }
{
    match show_first(show, out) {
        Ok(()) => {}
        Err(fault) => return Err(fault),
    }
    let mut faulted = false;
    let mut room = StepOutput::make();
    for done in 0..schedule.len() {
        if machine.is_quiet() {
            let end = End::Quiet { done };
            return Ok(RunEnd { faulted, end });
        }
        let event = schedule.event(done);
        match machine.event_into(event, schedule.quantum(), &mut room) {
            EventOutcome::Line { number } => {
                let ask = asks.of_event(number, event, &room.what);
                match show_event(show, number, event, &room.what, ask, names, out) {
                    Ok(()) => {}
                    Err(fault) => return Err(fault),
                }
                faulted = fault_so_far(faulted, &room.what);
            }
            EventOutcome::Full { kind, node } => {
                let end = End::Full { kind, node, done };
                return Ok(RunEnd { faulted, end });
            }
        }
    }
    let done = schedule.len();
    if machine.is_quiet() {
        let end = End::Quiet { done };
        return Ok(RunEnd { faulted, end });
    }
    let end = End::Schedule { done };
    Ok(RunEnd { faulted, end })
}
