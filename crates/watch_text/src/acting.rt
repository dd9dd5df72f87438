//! The next action of an object.
ghost use Rattle.std.specs.Prelude.{◌≡◌, ◌++◌, ◌∷◌, [], codes, map, OnOk};
ghost use Rattle.pool_syntax.specs.TreeOf.{program_of};
ghost use Rattle.pool_relation.specs.Action.{action};
ghost use Rattle.stepper_objects.specs.ObjectStates.{thing_object};
ghost use Rattle.object_acts.specs.Acts.{acted};
ghost use Rattle.record_writer.specs.RecordText.{led, object_text, text_at, value_text};
ghost use Rattle.stepper_terms.specs.Arguments.{now_args, now_choices, now_names};
ghost use Rattle.term_text.specs.StateText.{action_text, led_names};
ghost use Rattle.watch_text.specs.Acting.{values_text};

use object_acts::act::Act;
use pool_syntax::{Named, Program};
use record_writer::{push_error, push_item, push_name, push_object, push_value, push_word};
use run_types::{NameId, Names};
use std::alloc::AllocError;
use stepper_objects::object_state::ObjectState;
use stepper_terms::contexts::{Continuation, Focus, Operand, Ready, Task};

/// Appends the values of operands.
fn push_values(text: &mut Vec<u8>, operands: &[Operand]) -> Result<(), AllocError>
    ensures { OnOk result (text.new.items ≡ text.old.items ++ values_text operands.now) }
{
    for operand in operands {
        push_value(text, operand.value)?;
    }
    Ok(())
}

/// Appends the arguments of the redex.
fn push_arguments(text: &mut Vec<u8>, work: &Continuation<'_>) -> Result<(), AllocError>
    ensures { OnOk result (text.new.items ≡ text.old.items ++ led (map value_text (now_args work.now.next))) }
{
    match &work.next {
        Focus::Expression { redex, .. } => match redex {
            Ready::Call { args, .. } => push_values(text, args.as_slice()),
            Ready::Send { args, .. } => push_values(text, args.as_slice()),
            _ => Ok(()),
        },
        Focus::Statement { task, .. } => match task {
            Task::Async { args, .. } => push_values(text, args.as_slice()),
            _ => Ok(()),
        },
        _ => Ok(()),
    }
}

/// Appends names.
fn push_list(text: &mut Vec<u8>, names: &Names, list: &[Named]) -> Result<(), AllocError>
    ensures { OnOk result (text.new.items ≡ text.old.items ++ led_names names.now list.now) }
{
    for named in list {
        push_name(text, names, named.name)?;
    }
    Ok(())
}

/// Appends the names that the redex answers.
fn push_answered(
    text: &mut Vec<u8>,
    names: &Names,
    work: &Continuation<'_>,
) -> Result<(), AllocError>
    ensures { OnOk result (text.new.items ≡ text.old.items ++ led_names names.now (now_names work.now.next)) }
{
    match &work.next {
        Focus::Statement { task, .. } => match task {
            Task::Answer { names: listed } => push_list(text, names, listed),
            _ => Ok(()),
        },
        _ => Ok(()),
    }
}

/// Appends a word, an object and a method.
fn push_call(
    text: &mut Vec<u8>,
    names: &Names,
    word: &[u8],
    object: u32,
    method: NameId,
) -> Result<(), AllocError>
    ensures { OnOk result (text.new.items ≡ text.old.items ++ led (word.now ∷ object_text object ∷ text_at names.now method ∷ [])) }
{
    push_word(text, word)?;
    push_object(text, object)?;
    push_name(text, names, method)
}

/// Appends the next action of an object of the program, whether or not it has met an error.
pub fn push_act<'a>(
    text: &mut Vec<u8>,
    names: &Names,
    program: &'a Program,
    object: u32,
    thing: &ObjectState<'a>,
) -> Result<(), AllocError>
    ensures { OnOk result (text.new.items ≡ text.old.items ++ action_text names.now (action (program_of program.now) object (thing_object thing.now))) }
{
    match thing.act(program, object) {
        Act::Finished => push_word(text, b"finished"),
        Act::Local(_) => push_word(text, b"local"),
        Act::Fault(error) => {
            push_word(text, b"fault")?;
            push_error(text, error)
        }
        Act::New(class) => {
            push_word(text, b"new")?;
            push_name(text, names, class)
        }
        Act::Send { to, method } => {
            push_call(text, names, b"send", to, method)?;
            push_arguments(text, &thing.work)
        }
        Act::Async { to, method } => {
            push_call(text, names, b"async", to, method)?;
            push_arguments(text, &thing.work)
        }
        Act::Write(item) => {
            push_word(text, b"write")?;
            push_item(text, names, item)
        }
        Act::Answer => {
            push_word(text, b"answer")?;
            push_answered(text, names, &thing.work)
        }
        Act::Select => push_word(text, b"select"),
        Act::Return { caller, value } => {
            push_word(text, b"return")?;
            push_object(text, caller)?;
            push_value(text, value)
        }
        Act::Waits { on, method } => push_call(text, names, b"waits", on, method),
        Act::Stuck => push_word(text, b"stuck"),
    }
}
