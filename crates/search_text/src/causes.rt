//! The lines that say why a search does not know the answer.
ghost use Rattle.std.specs.Prelude.{◌≡◌, ◌++◌, OnOk};
ghost use Rattle.search_text.specs.AnswerText.{bound_line, cause_text, limit_line, mailbox_line, transitions_line};

use pool_search::{Cause, Mailbox, Member};
use record_writer::{push_count, push_name, push_object, push_word};
use run_types::Names;
use std::alloc::AllocError;

/// Appends the line of a bound on kept configurations.
fn push_bound(text: &mut Vec<u8>) -> Result<(), AllocError>
    ensures { OnOk result (text.new.items ≡ text.old.items ++ bound_line) }
{
    text.extend_from_slice(b"reason bound\n")
}

/// Appends the line of a mailbox.
fn push_mailbox(text: &mut Vec<u8>, names: &Names, mailbox: &Mailbox) -> Result<(), AllocError>
    ensures { OnOk result (text.new.items ≡ text.old.items ++ mailbox_line names.now mailbox.now) }
{
    text.extend_from_slice(b"mailbox")?;
    push_object(text, mailbox.owner.object)?;
    push_name(text, names, mailbox.owner.class)?;
    push_count(text, mailbox.messages)?;
    text.extend_from_slice(b"\n")
}

/// Appends the line of transitions that followed one another, of which this object made the last.
fn push_transitions(text: &mut Vec<u8>, names: &Names, last: &Member) -> Result<(), AllocError>
    ensures { OnOk result (text.new.items ≡ text.old.items ++ transitions_line names.now last.now) }
{
    text.extend_from_slice(b"reason transitions")?;
    push_object(text, last.object)?;
    push_name(text, names, last.class)?;
    text.extend_from_slice(b"\n")
}

/// Appends the line of another limit.
fn push_limit(text: &mut Vec<u8>) -> Result<(), AllocError>
    ensures { OnOk result (text.new.items ≡ text.old.items ++ limit_line) }
{
    text.extend_from_slice(b"reason limit\n")
}

/// Appends why a search does not know the answer.
pub fn push_cause(text: &mut Vec<u8>, names: &Names, cause: &Cause) -> Result<(), AllocError>
    ensures { OnOk result (text.new.items ≡ text.old.items ++ cause_text names.now cause.now) }
{
    match cause {
        Cause::Bound(None) => push_bound(text),
        Cause::Bound(Some(mailbox)) => {
            push_bound(text)?;
            push_mailbox(text, names, mailbox)
        }
        Cause::Transitions(last) => push_transitions(text, names, last),
        Cause::Limit => push_limit(text),
    }
}
