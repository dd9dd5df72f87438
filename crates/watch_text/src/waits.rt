//! The report on the configuration that a record leads to.
ghost use Rattle.std.specs.Prelude.{◌≡◌, ◌++◌, Some, IfOk, OnOk, false};
ghost use Rattle.mesh_semantics.specs.Record.{labels};
ghost use Rattle.pool_syntax.specs.TreeOf.{program_of};
ghost use Rattle.pool_relation.specs.Action.{action};
ghost use Rattle.pool_relation.specs.Transition.{start};
ghost use Rattle.pool_semantics.specs.PlainOf.{configuration_of, program_tree, is_spent};
ghost use Rattle.record_check.specs.RecordJudgement.{Judged, LeadsTo, root};
ghost use Rattle.record_check.specs.VerdictText.{verdict_text};
ghost use Rattle.run_types.specs.declared.verdicts.Verdict.TheVariants as V;
ghost use Rattle.stepper_objects.specs.ObjectStates.{thing_object, things};
ghost use Rattle.wait_report.specs.Calls.{names_of, Rising};
ghost use Rattle.wait_report.specs.Report.{report_text, rows_text};
ghost use Rattle.watch_text.specs.ObjectRows.{object_row, rows_of, standing_of};
ghost use Rattle.watch_text.specs.Waits.{AreRows, IsReport, IsWaits};

use crate::watched::{Watched, push_stop, push_verdict};
use class_check::Checked;
use object_acts::act::Act;
use pool_semantics::Plain;
use pool_syntax::Program;
use record_check::{Mismatch, follow, judge_end, root};
use run_types::{Line, NameId, Names, Standing};
use std::alloc::{AllocError, Global};
use std::collections::{BTreeMap, BTreeSet};
use stepper_objects::object_state::ObjectState;
use wait_report::{ObjectRow, put_each_cycle, put_row};

/// The status of an object. `moves` says whether it can make a transition of its own. This is tested only at an answer
/// or select, since each other action decides it.
fn standing<'a>(program: &'a Program, name: u32, thing: &ObjectState<'a>, moves: bool) -> Standing
    ensures { result ≡ standing_of moves (thing_object thing.now).fault (action (program_of program.now) name (thing_object thing.now)) }
{
    if let Some(error) = thing.fault {
        return Standing::Faulted { error };
    }
    match thing.act(program, name) {
        Act::Finished => Standing::Finished,
        Act::Send { to, method } => Standing::Calls { to, method },
        Act::Waits { on, method } => Standing::Calls { to: on, method },
        Act::Answer | Act::Select => {
            if moves {
                Standing::Ready
            } else {
                Standing::Awaits
            }
        }
        Act::Local(_)
        | Act::Fault(_)
        | Act::New(_)
        | Act::Async { .. }
        | Act::Write(_)
        | Act::Return { .. }
        | Act::Stuck => Standing::Ready,
    }
}

/// The row of an object.
fn object_row<'a>(
    program: &'a Program,
    name: u32,
    thing: &ObjectState<'a>,
    moves: bool,
) -> ObjectRow
    ensures { result ≡ object_row moves (program_of program.now) (name, thing_object thing.now) }
{
    ObjectRow {
        name,
        class: NameId(thing.class),
        standing: standing(program, name, thing, moves),
    }
}

/// A row for each of the objects. `movers` are those that can make a transition of their own.
fn rows_of<'a>(
    alloc: Global,
    movers: &BTreeSet<u32>,
    program: &'a Program,
    objects: &BTreeMap<u32, ObjectState<'a>>,
) -> Result<Vec<ObjectRow>, AllocError>
    ensures { IfOk result (λ rows. rows.items ≡ rows_of movers.now (program_of program.now) (things objects.now.entries)) }
{
    let mut rows = Vec::new(alloc);
    for (name, thing) in objects {
        rows.push(object_row(program, *name, thing, movers.contains(name)))?;
    }
    Ok(rows)
}

/// A row for each object of the configuration of the stepper, by rising names.
fn object_rows(alloc: Global, plain: &Plain<'_>) -> Result<Vec<ObjectRow>, AllocError>
    requires { is_spent plain.now ≡ false }
    ensures rows { IfOk result (λ rows. AreRows (program_tree plain.now) (configuration_of plain.now) (configuration_of plain.now).objects rows.items) }
    ensures rising { IfOk result (λ rows. Rising (names_of rows.items)) }
{
    let movers = plain.movers(alloc)?;
    let state = plain.state();
    rows_of(alloc, &movers, state.program, &state.objects)
}

/// Appends the lines of the objects.
fn push_objects(text: &mut Vec<u8>, names: &Names, rows: &[ObjectRow]) -> Result<(), AllocError>
    ensures { OnOk result (text.new.items ≡ text.old.items ++ rows_text names.now rows.now) }
{
    for row in rows {
        put_row(text, names, row)?;
    }
    Ok(())
}

/// Appends the lines of the objects, and of the cycles of calls among them. Requires rows with rising names.
fn push_report(
    alloc: Global,
    text: &mut Vec<u8>,
    names: &Names,
    rows: &[ObjectRow],
) -> Result<(), AllocError>
    requires { Rising (names_of rows.now) }
    ensures { OnOk result (text.new.items ≡ text.old.items ++ report_text names.now rows.now) }
{
    push_objects(text, names, rows)?;
    put_each_cycle(alloc, text, rows)
}

/// The report on the configuration of the stepper, and the verdict. All labels were applied.
fn report_end(
    alloc: Global,
    names: &Names,
    plain: &Plain<'_>,
    lines: &[Line],
) -> Result<Watched, AllocError>
    requires { is_spent plain.now ≡ false }
    ensures judged { IfOk result (λ w. LeadsTo (program_tree plain.now) lines.now (configuration_of plain.now) → Judged (program_tree plain.now) lines.now w.verdict) }
    ensures report { IfOk result (λ w. IsReport (program_tree plain.now) names.now (Some (configuration_of plain.now)) w.text.items w.verdict) }
{
    let Ok(rows) = object_rows(alloc, plain) else {
        return Err(AllocError);
    };
    let mut text = Vec::new(alloc);
    let Ok(()) = push_report(alloc, &mut text, names, &rows) else {
        return Err(AllocError);
    };
    let verdict = judge_end(plain, lines);
    let Ok(()) = push_verdict(alloc, &mut text, names, &verdict) else {
        return Err(AllocError);
    };
    Ok(Watched { text, verdict })
}

/// The line of the verdict alone, since a line is impossible.
fn report_stop(alloc: Global, names: &Names, stop: Mismatch) -> Result<Watched, AllocError>
    ensures verdict { IfOk result (λ w. w.verdict ≡ V.No stop.number stop.redex) }
    ensures text { IfOk result (λ w. w.text.items ≡ verdict_text names.now w.verdict) }
{
    let mut text = Vec::new(alloc);
    let verdict = push_stop(alloc, &mut text, names, stop)?;
    Ok(Watched { text, verdict })
}

/// Makes the transitions of the lines from the start of the program, and reports on the last configuration.
fn report_from(
    alloc: Global,
    names: &Names,
    plain: &mut Plain<'_>,
    lines: &[Line],
) -> Result<Watched, AllocError>
    requires fresh { is_spent plain.old ≡ false }
    requires starts { start (program_tree plain.old) (root lines.now) ≡ Some (configuration_of plain.old) }
    ensures { IfOk result (λ w. IsWaits (program_tree plain.old) names.now lines.now w.text.items w.verdict) }
{
    match follow(plain, lines) {
        Ok(None) => report_end(alloc, names, plain, lines),
        Ok(Some(stop)) => report_stop(alloc, names, stop),
        Err(_) => Err(AllocError),
    }
}

/// The report on the configuration that a record leads to, and the verdict on the record. It has a line for each object
/// with its status, by rising names, a line for each cycle of calls, and the line of the verdict. If a line of the
/// record is impossible, it has only the line of the verdict.
/// An error means out of memory, or that an object would have more than 1,000,000 methods under way.
/// The time is proportional to the transitions that the lines show and to the messages not yet taken, and beyond that
/// it is the time to sort the objects.
pub fn report_waits(
    alloc: Global,
    program: &Checked<'_>,
    names: &Names,
    lines: &[Line],
) -> Result<Watched, AllocError>
    ensures { IfOk result (λ w. IsWaits (program_of program.now.program.now) names.now lines.now w.text.items w.verdict) }
{
    let Ok(mut plain) = Plain::make(alloc, program, root(lines)) else {
        return Err(AllocError);
    };
    report_from(alloc, names, &mut plain, lines)
}
