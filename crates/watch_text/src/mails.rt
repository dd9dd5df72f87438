//! The line of the messages of a pair.
ghost use Rattle.std.specs.Prelude.{◌≡◌, ◌++◌, OnOk, map};
ghost use Rattle.std.specs.BTreeMap.{values};
ghost use Rattle.pool_relation.specs.Configuration.{messages_of};
ghost use Rattle.message_queue.specs.Mails.{message_of};
ghost use Rattle.pool_semantics.specs.Mails.{queued};
ghost use Rattle.pool_semantics.specs.Plains.{configuration};
ghost use Rattle.watch_text.specs.Acting.{message_text};
ghost use Rattle.term_text.specs.StateText.{mail_line, mail_text};

use message_queue::{Mail, MessageQueue};
use pool_semantics::State;
use record_writer::{push_args, push_name, push_object, push_word};
use run_types::Names;
use std::alloc::AllocError;
use std::collections::{BTreeMap, VecDeque};

/// Appends a message.
fn push_message(text: &mut Vec<u8>, names: &Names, mail: &Mail) -> Result<(), AllocError>
    ensures { OnOk result (text.new.items ≡ text.old.items ++ message_text names.now (message_of mail.now)) }
{
    push_word(text, b":")?;
    push_name(text, names, mail.method)?;
    push_args(text, &mail.args)
}

/// Appends these messages.
fn push_early(text: &mut Vec<u8>, names: &Names, mails: &VecDeque<Mail>) -> Result<(), AllocError>
    ensures { OnOk result (text.new.items ≡ text.old.items ++ mail_text names.now (map message_of mails.now.items)) }
{
    for at in 0..mails.len() {
        push_message(text, names, &mails[at])?;
    }
    Ok(())
}

/// The same of messages by their stamps.
fn push_later(
    text: &mut Vec<u8>,
    names: &Names,
    mails: &BTreeMap<u64, Mail>,
) -> Result<(), AllocError>
    ensures { OnOk result (text.new.items ≡ text.old.items ++ mail_text names.now (map message_of (values mails.now))) }
{
    for mail in mails.values() {
        push_message(text, names, mail)?;
    }
    Ok(())
}

/// Appends the messages of a queue.
fn push_queue(text: &mut Vec<u8>, names: &Names, queue: &MessageQueue) -> Result<(), AllocError>
    ensures { OnOk result (text.new.items ≡ text.old.items ++ mail_text names.now (map message_of queue.now)) }
{
    let (early, later) = queue.parts();
    push_early(text, names, early)?;
    push_later(text, names, later)
}

/// Appends the messages of a sender to a receiver.
fn push_messages(
    text: &mut Vec<u8>,
    names: &Names,
    state: &State<'_>,
    sender: u32,
    receiver: u32,
) -> Result<(), AllocError>
    ensures { OnOk result (text.new.items ≡ text.old.items ++ mail_text names.now (messages_of (configuration state.now) sender receiver)) }
{
    match state.messages.get(&(sender, receiver)) {
        None => Ok(()),
        Some(queue) => push_queue(text, names, queue),
    }
}

/// Appends the line of the messages of a sender to a receiver, which are those of a queue.
pub fn push_queue_line(
    text: &mut Vec<u8>,
    names: &Names,
    sender: u32,
    receiver: u32,
    queue: &MessageQueue,
) -> Result<(), AllocError>
    ensures { OnOk result (text.new.items ≡ text.old.items ++ mail_line names.now sender receiver (queued queue.now)) }
{
    text.extend_from_slice(b"mail")?;
    push_object(text, sender)?;
    push_object(text, receiver)?;
    push_queue(text, names, queue)?;
    text.extend_from_slice(b"\n")
}

/// Appends the line of the messages of a sender to a receiver, also if there are none.
pub fn push_mail(
    text: &mut Vec<u8>,
    names: &Names,
    state: &State<'_>,
    sender: u32,
    receiver: u32,
) -> Result<(), AllocError>
    ensures { OnOk result (text.new.items ≡ text.old.items ++ mail_line names.now sender receiver (messages_of (configuration state.now) sender receiver)) }
{
    text.extend_from_slice(b"mail")?;
    push_object(text, sender)?;
    push_object(text, receiver)?;
    push_messages(text, names, state, sender, receiver)?;
    text.extend_from_slice(b"\n")
}
