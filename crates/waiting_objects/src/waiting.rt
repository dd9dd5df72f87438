//! The objects that wait in a configuration.
ghost use Rattle.std.specs.Prelude.{◌≡◌, ◌++◌, IfOk, OnOk, option_map};
ghost use Rattle.pool_syntax.specs.TreeOf.{program_of};
ghost use Rattle.stepper_objects.specs.ObjectStates.{thing_object, things};
ghost use Rattle.pool_semantics.specs.PlainOf.{configuration_of, program_tree};
ghost use Rattle.waiting_objects.specs.Waiting.{waiting_at, waiting_in, waiting_now, waiting_row, waiting_rows};
ghost use Rattle.pool_relation.specs.Action.{action};
ghost use Rattle.wait_report.specs.Calls.{names_of, Rising};
ghost use Rattle.object_acts.specs.Acts.{acted};

use object_acts::act::Act;
use pool_semantics::Plain;
use pool_syntax::Program;
use run_types::{NameId, Standing};
use std::alloc::{AllocError, Global};
use std::collections::BTreeMap;
use stepper_objects::object_state::ObjectState;
use wait_report::ObjectRow;

/// The status of an object that waits. It waits in a call, or at a call that it is to make.
/// With `all`, it also waits at `answer` or `select`. None for other objects, and after a run-time error.
fn standing<'a>(
    all: bool,
    program: &'a Program,
    name: u32,
    thing: &ObjectState<'a>,
) -> Option<Standing>
    ensures { result ≡ waiting_now all (thing_object thing.now).fault (action (program_of program.now) name (thing_object thing.now)) }
{
    if thing.fault.is_some() {
        return None;
    }
    match thing.act(program, name) {
        Act::Send { to, method } => Some(Standing::Calls { to, method }),
        Act::Waits { on, method } => Some(Standing::Calls { to: on, method }),
        Act::Answer | Act::Select => { if all { Some(Standing::Awaits) } else { None } }
        Act::Finished
        | Act::Local(_)
        | Act::Fault(_)
        | Act::New(_)
        | Act::Async { .. }
        | Act::Write(_)
        | Act::Return { .. }
        | Act::Stuck => None,
    }
}

/// The row of an object, if it waits.
fn waiting_row<'a>(
    all: bool,
    program: &'a Program,
    name: u32,
    thing: &ObjectState<'a>,
) -> Option<ObjectRow>
    ensures { result ≡ waiting_row all (program_of program.now) (name, thing_object thing.now) }
{
    match standing(all, program, name, thing) {
        Some(standing) => Some(ObjectRow {
            name,
            class: NameId(thing.class),
            standing,
        }),
        None => None,
    }
}

fn waiting_in<'a>(
    alloc: Global,
    all: bool,
    program: &'a Program,
    objects: &BTreeMap<u32, ObjectState<'a>>,
) -> Result<Vec<ObjectRow>, AllocError>
    ensures { IfOk result (λ rows. rows.items ≡ waiting_in all (program_of program.now) (things objects.now.entries)) }
{
    let mut rows = Vec::new(alloc);
    for (name, thing) in objects {
        if let Some(row) = waiting_row(all, program, *name, thing) {
            rows.push(row)?;
        }
    }
    Ok(rows)
}

/// The rows of the objects that wait, by rising names. With `all`, also of those at `answer` or `select`.
/// An error means out of memory.
pub fn waiting_rows(
    alloc: Global,
    plain: &Plain<'_>,
    all: bool,
) -> Result<Vec<ObjectRow>, AllocError>
    ensures rows { IfOk result (λ rows. rows.items ≡ waiting_rows all (program_tree plain.now) (configuration_of plain.now)) }
    ensures rising { IfOk result (λ rows. Rising (names_of rows.items)) }
{
    let state = plain.state();

    // The keys of the map rise; its length says so.
    let _count = state.objects.len();
    waiting_in(alloc, all, state.program, &state.objects)
}
