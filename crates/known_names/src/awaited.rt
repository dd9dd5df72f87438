//! Whether an object is at an answer or in a call, waits for another one, or knows only names of others.
ghost use Rattle.std.specs.Prelude.{◌≡◌, Some};
ghost use Rattle.pool_syntax.specs.TreeOf.{program_of};
ghost use Rattle.stepper_objects.specs.ObjectStates.{thing_object};
ghost use Rattle.pool_semantics.specs.Mails.{message_of};
ghost use Rattle.known_names.specs.Awaited.{awaits, is_calling, is_message_other, is_serving, is_state_fit};

use crate::names::{OtherNames, are_values_other};
use object_acts::act::Act;
use pool_semantics::Mail;
use pool_syntax::Program;
use stepper_objects::object_state::ObjectState;

/// Whether the object of this name has met no error, and is at an `answer` or a `select`.
pub fn is_serving<'a>(program: &'a Program, name: u32, thing: &ObjectState<'a>) -> bool
    ensures { result ≡ is_serving (program_of program.now) name (Some (thing_object thing.now)) }
{
    if thing.fault.is_some() {
        return false;
    }
    match thing.act(program, name) {
        Act::Answer | Act::Select => true,
        Act::Finished
        | Act::Local(_)
        | Act::Fault(_)
        | Act::New(_)
        | Act::Send { .. }
        | Act::Async { .. }
        | Act::Write(_)
        | Act::Return { .. }
        | Act::Waits { .. }
        | Act::Stuck => false,
    }
}

/// Whether the object of this name has met no error, and is at a call or in one.
pub fn is_calling<'a>(program: &'a Program, name: u32, thing: &ObjectState<'a>) -> bool
    ensures { result ≡ is_calling (program_of program.now) name (Some (thing_object thing.now)) }
{
    if thing.fault.is_some() {
        return false;
    }
    match thing.act(program, name) {
        Act::Send { .. } | Act::Waits { .. } => true,
        Act::Finished
        | Act::Local(_)
        | Act::Fault(_)
        | Act::New(_)
        | Act::Async { .. }
        | Act::Write(_)
        | Act::Answer
        | Act::Select
        | Act::Return { .. }
        | Act::Stuck => false,
    }
}

/// Whether the object of this name has met an error, has finished, or is at a call of `awaited`.
pub fn awaits<'a>(program: &'a Program, awaited: u32, name: u32, thing: &ObjectState<'a>) -> bool
    ensures { result ≡ awaits (program_of program.now) awaited name (Some (thing_object thing.now)) }
{
    if thing.fault.is_some() {
        return true;
    }
    match thing.act(program, name) {
        Act::Finished => true,
        Act::Send { to, .. } => to == awaited,
        Act::Local(_)
        | Act::Fault(_)
        | Act::New(_)
        | Act::Async { .. }
        | Act::Write(_)
        | Act::Answer
        | Act::Select
        | Act::Return { .. }
        | Act::Waits { .. }
        | Act::Stuck => false,
    }
}

/// Whether the object of this name is the one that is awaited, `others.name`, or awaits it, or has a name below the
/// bound and knows only other names.
pub fn is_fit<'a>(
    program: &'a Program,
    others: OtherNames,
    name: u32,
    thing: &ObjectState<'a>,
) -> bool
    ensures { result ≡ is_state_fit (program_of program.now) others.next others.name name thing.now }
{
    name == others.name
        || awaits(program, others.name, name, thing)
        || (name < others.next && others.has_object(thing))
}

/// Whether each name of an object among the arguments of the message is one of the other names.
pub fn is_mail_other(others: OtherNames, mail: &Mail) -> bool
    ensures { result ≡ is_message_other others.next others.name (message_of mail.now) }
{
    are_values_other(others, mail.args.values())
}
