//! The lines of an object.
ghost use Rattle.std.specs.Prelude.{◌≡◌, ◌++◌, OnOk};
ghost use Rattle.pool_syntax.specs.TreeOf.{program_of};
ghost use Rattle.pool_relation.specs.Configuration.{object_of};
ghost use Rattle.stepper_objects.specs.ObjectStates.{thing_object};
ghost use Rattle.pool_semantics.specs.Plains.{configuration};
ghost use Rattle.stepper_terms.specs.Parts.{term_of};
ghost use Rattle.term_text.specs.Levels.{term_lines};
ghost use Rattle.pool_relation.specs.Action.{action};
ghost use Rattle.term_text.specs.StateText.{at_line, block, block_of, object_line, standing_text};

use crate::acting::push_act;
use pool_semantics::State;
use pool_syntax::Program;
use record_writer::{push_error, push_name, push_object, push_word};
use run_types::{NameId, Names};
use std::alloc::AllocError;
use stepper_objects::object_state::ObjectState;
use stepper_terms::contexts::Continuation;
use stepper_text::push_work;
use term_text::push_bindings;

/// Appends the line of an object with its class and variables.
fn push_object_line(
    text: &mut Vec<u8>,
    names: &Names,
    object: u32,
    thing: &ObjectState<'_>,
) -> Result<(), AllocError>
    ensures { OnOk result (text.new.items ≡ text.old.items ++ object_line names.now object (thing_object thing.now)) }
{
    text.extend_from_slice(b"object")?;
    push_object(text, object)?;
    push_name(text, names, NameId(thing.class))?;
    push_bindings(text, names, thing.vars.as_slice())?;
    text.extend_from_slice(b"\n")
}

/// Appends the lines of an object's body and of its methods under way.
#[tactic(auto, using(stepper_text::proofs::Laws::work_is))]
fn push_term(
    text: &mut Vec<u8>,
    names: &Names,
    object: u32,
    work: &Continuation<'_>,
) -> Result<(), AllocError>
    ensures { OnOk result (text.new.items ≡ text.old.items ++ term_lines names.now object (term_of work.now)) }
{
    push_work(text, names, object, work)
}

/// Appends the next action of an object, or the run-time error that it has met.
fn push_standing<'a>(
    text: &mut Vec<u8>,
    names: &Names,
    program: &'a Program,
    object: u32,
    thing: &ObjectState<'a>,
) -> Result<(), AllocError>
    ensures { OnOk result (text.new.items ≡ text.old.items ++ standing_text names.now thing.now.fault (action (program_of program.now) object (thing_object thing.now))) }
{
    match thing.fault {
        Some(error) => {
            push_word(text, b"faulted")?;
            push_error(text, error)
        }
        None => push_act(text, names, program, object, thing),
    }
}

/// Appends the line of the next action of an object.
fn push_at<'a>(
    text: &mut Vec<u8>,
    names: &Names,
    program: &'a Program,
    object: u32,
    thing: &ObjectState<'a>,
) -> Result<(), AllocError>
    ensures { OnOk result (text.new.items ≡ text.old.items ++ at_line names.now (program_of program.now) object (thing_object thing.now)) }
{
    text.extend_from_slice(b"at")?;
    push_object(text, object)?;
    push_standing(text, names, program, object, thing)?;
    text.extend_from_slice(b"\n")
}

/// Appends the lines of an object of the program.
pub fn push_thing<'a>(
    text: &mut Vec<u8>,
    names: &Names,
    program: &'a Program,
    object: u32,
    thing: &ObjectState<'a>,
) -> Result<(), AllocError>
    ensures { OnOk result (text.new.items ≡ text.old.items ++ block names.now (program_of program.now) object (thing_object thing.now)) }
{
    push_object_line(text, names, object, thing)?;
    push_at(text, names, program, object, thing)?;
    push_term(text, names, object, &thing.work)
}

/// Appends the lines of the object of this name, if there is one. An error means out of memory.
pub fn push_block(
    text: &mut Vec<u8>,
    names: &Names,
    state: &State<'_>,
    object: u32,
) -> Result<(), AllocError>
    ensures { OnOk result (text.new.items ≡ text.old.items ++ block_of names.now (program_of state.now.program.now) object (object_of (configuration state.now) object)) }
{
    match state.next_of(object) {
        None => Ok(()),
        Some((thing, _)) => push_thing(text, names, state.program, object, thing),
    }
}
