//! Messages that wait, and how they change where one is sent or taken.
ghost use Rattle.std.specs.Prelude.{◌≡◌, ◌≢◌, [], Ok, Some, map, true, false};
ghost use Rattle.run_types.specs.Tables.{pair_cmp, list_at};
ghost use Rattle.message_queue.specs.Mails.{message_of, first_of};
ghost use Rattle.pool_semantics.specs.Mails.{posts};
ghost use Rattle.object_moves.specs.Known.{parcel_message};
ghost use Rattle.object_moves.specs.Waiting.{IsGone, IsMoved, IsTaken, is_next};

use crate::equality::same_values;
use crate::known::{Lead, Parcel};
use message_queue::{Mail, MessageQueue};
use pool_semantics::{post, unpost};
use run_types::NameId;
use std::alloc::{AllocError, Global};
use std::collections::BTreeMap;

/// Whether a message from the sender to the receiver waits.
pub fn waits(messages: &BTreeMap<(u32, u32), MessageQueue>, sender: u32, receiver: u32) -> bool
    ensures { result ≡ false → list_at pair_cmp (sender, receiver) (posts messages.now.entries) ≡ [] }
{
    messages.get(&(sender, receiver)).is_some()
}

/// Whether the first message of the queue is for this method.
fn is_next(queue: &MessageQueue, method: NameId) -> bool
    ensures { result ≡ is_next method.0 (map message_of queue.now) }
{
    match queue.front() {
        Some(mail) => mail.method.0 == method.0,
        None => false,
    }
}

/// Whether the message is for this method and has these arguments.
fn is_mail(mail: &Mail, act: &Parcel) -> bool
    ensures is { result ≡ true → message_of mail.now ≡ parcel_message act.now }
    ensures other { result ≡ false → message_of mail.now ≢ parcel_message act.now }
{
    mail.method.0 == act.method.0 && same_values(mail.args.values(), act.args.values())
}

/// Takes this message to the receiver, if it is the first one of its sender. `Impossible` if no object can take it,
/// since it is not the first one of its sender for its method. `Unknown` if others are before it. The messages are then
/// the same.
fn take_first(
    messages: &mut BTreeMap<(u32, u32), MessageQueue>,
    receiver: u32,
    act: &Parcel,
) -> Lead
    ensures made { result ≡ Lead.Made → IsTaken receiver act.now (posts messages.old.entries) (posts messages.new.entries) }
    ensures impossible { result ≡ Lead.Impossible → first_of act.now.method.0 (list_at pair_cmp (act.now.other, receiver) (posts messages.old.entries)) ≢ Some (parcel_message act.now) }
{
    match messages.get(&(act.other, receiver)) {
        None => return Lead::Impossible,
        Some(queue) => match queue.first_of(act.method) {
            None => return Lead::Impossible,
            Some(mail) => {
                if !is_mail(mail, act) {
                    return Lead::Impossible;
                }
                if !is_next(queue, act.method) {
                    return Lead::Unknown;
                }
            }
        },
    }
    unpost(messages, act.other, receiver, act.method);
    Lead::Made
}

/// Changes the messages as the transition does in which the object sends or takes this one, where `count` objects have
/// the names 0, 1, 2, .. `Impossible` if no object can take it, since it is not the first one of its sender for its
/// method. `Unknown` if others are before it, or if there is no receiver. An error means out of memory.
pub fn change_messages(
    alloc: Global,
    messages: &mut BTreeMap<(u32, u32), MessageQueue>,
    count: usize,
    object: u32,
    act: &Parcel,
) -> Result<Lead, AllocError>
    ensures made { result ≡ Ok Lead.Made → IsMoved count object act.now (posts messages.old.entries) (posts messages.new.entries) }
    ensures impossible { result ≡ Ok Lead.Impossible → IsGone object act.now (posts messages.old.entries) }
{
    if act.takes {
        return Ok(take_first(messages, object, act));
    }
    if act.other as usize >= count {
        return Ok(Lead::Unknown);
    }
    post(alloc, messages, object, act.other, act.mail())?;
    Ok(Lead::Made)
}
