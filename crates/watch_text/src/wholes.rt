//! The lines of a whole configuration.
ghost use Rattle.std.specs.Prelude.{◌≡◌, ◌++◌, OnOk};
ghost use Rattle.pool_syntax.specs.TreeOf.{program_of};
ghost use Rattle.stepper_objects.specs.ObjectStates.{things};
ghost use Rattle.pool_semantics.specs.Mails.{posts};
ghost use Rattle.pool_semantics.specs.Plains.{configuration};
ghost use Rattle.term_text.specs.StateText.{blocks, configuration_text, mails};

use crate::blocks::push_thing;
use crate::mails::push_queue_line;
use message_queue::MessageQueue;
use pool_semantics::State;
use pool_syntax::Program;
use run_types::Names;
use std::alloc::AllocError;
use std::collections::BTreeMap;
use stepper_objects::object_state::ObjectState;

/// Appends the lines of all objects, by rising names.
fn push_blocks<'a>(
    text: &mut Vec<u8>,
    names: &Names,
    program: &'a Program,
    objects: &BTreeMap<u32, ObjectState<'a>>,
) -> Result<(), AllocError>
    ensures { OnOk result (text.new.items ≡ text.old.items ++ blocks names.now (program_of program.now) (things objects.now.entries)) }
{
    for (object, thing) in objects {
        push_thing(text, names, program, *object, thing)?;
    }
    Ok(())
}

/// Appends the lines of all pairs with messages, by rising names.
fn push_mails(
    text: &mut Vec<u8>,
    names: &Names,
    messages: &BTreeMap<(u32, u32), MessageQueue>,
) -> Result<(), AllocError>
    ensures { OnOk result (text.new.items ≡ text.old.items ++ mails names.now (posts messages.now.entries)) }
{
    for (pair, queue) in messages {
        push_queue_line(text, names, pair.0, pair.1, queue)?;
    }
    Ok(())
}

/// Appends the lines of a configuration: of its objects, and of the pairs with messages. An error means out of memory.
pub fn push_configuration(
    text: &mut Vec<u8>,
    names: &Names,
    state: &State<'_>,
) -> Result<(), AllocError>
    ensures { OnOk result (text.new.items ≡ text.old.items ++ configuration_text names.now (program_of state.now.program.now) (configuration state.now)) }
{
    push_blocks(text, names, state.program, &state.objects)?;
    push_mails(text, names, &state.messages)
}
