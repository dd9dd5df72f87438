//! What a transition changed.
ghost use Rattle.std.specs.Prelude.{◌≡◌, ◌++◌, OnOk};
ghost use Rattle.pool_syntax.specs.TreeOf.{program_of};
ghost use Rattle.pool_semantics.specs.Plains.{configuration};
ghost use Rattle.term_text.specs.StateText.{change_text};

use crate::blocks::push_block;
use crate::mails::push_mail;
use pool_semantics::State;
use run_types::{Label, Names};
use std::alloc::AllocError;

/// Appends what a transition with this label changed, as it is after the transition. An error means out of memory.
pub fn push_change(
    text: &mut Vec<u8>,
    names: &Names,
    state: &State<'_>,
    label: &Label,
) -> Result<(), AllocError>
    ensures { OnOk result (text.new.items ≡ text.old.items ++ change_text names.now (program_of state.now.program.now) label.now (configuration state.now)) }
{
    match label {
        Label::Local { object }
        | Label::Write { object, .. }
        | Label::Pick { object, .. }
        | Label::Fault { object, .. } => push_block(text, names, state, *object),
        Label::New { object, name, .. } => {
            push_block(text, names, state, *object)?;
            push_block(text, names, state, *name)
        }
        Label::Answer {
            receiver,
            caller,
            ..
        }
        | Label::Return {
            receiver,
            caller,
            ..
        } => {
            push_block(text, names, state, *receiver)?;
            push_block(text, names, state, *caller)
        }
        Label::Send {
            object,
            receiver,
            ..
        } => {
            push_block(text, names, state, *object)?;
            push_mail(text, names, state, *object, *receiver)
        }
        Label::Take {
            receiver,
            sender,
            ..
        } => {
            push_block(text, names, state, *receiver)?;
            push_mail(text, names, state, *sender, *receiver)
        }
    }
}
