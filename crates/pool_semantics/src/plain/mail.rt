//! Asynchronous messages, in a queue for each sender and receiver.
ghost use Rattle.std.specs.Prelude.{◌≡◌, [], ◌∷◌, ◌++◌, OnOk, map, is_some, true, false};
ghost use Rattle.std.specs.List.{list_any};
ghost use Rattle.std.specs.FinMap.{put};
ghost use Rattle.std.specs.BTreeMap.{values};
ghost use Rattle.run_types.specs.Tables.{pair_cmp, list_at, put_list};
ghost use Rattle.stepper_terms.specs.Arguments.{now_names, now_choices};
ghost use Rattle.stepper_objects.specs.Offers.{offer_act};
ghost use Rattle.message_queue.specs.Mails.{message_of, without_of};
ghost use Rattle.pool_semantics.specs.Mails.{posts, queued};

use message_queue::{Mail, MessageQueue};
use object_acts::act::Act;
use run_types::NameId;
use std::alloc::{AllocError, Global};
use std::collections::{BTreeMap, VecDeque};
use stepper_objects::offers::offer_to;
use stepper_terms::contexts::Continuation;

/// Whether an object with this next action offers the method of one of these messages.
fn any_early(mails: &VecDeque<Mail>, work: &Continuation<'_>, act: &Act<'_>) -> bool
    ensures { result ≡ list_any (λ m. is_some (offer_act act.now (now_names work.now.next) (now_choices work.now.next) m.method)) (map message_of mails.now.items) }
{
    let mut at = 0;
    while at < mails.len() {
        if offer_to(work, act, mails[at].method.0).is_some() {
            return true;
        }
        at += 1;
    }
    false
}

/// The same of messages by their stamps.
fn any_later(mails: &BTreeMap<u64, Mail>, work: &Continuation<'_>, act: &Act<'_>) -> bool
    ensures { result ≡ list_any (λ m. is_some (offer_act act.now (now_names work.now.next) (now_choices work.now.next) m.method)) (map message_of (values mails.now)) }
{
    for mail in mails.values() {
        if offer_to(work, act, mail.method.0).is_some() {
            return true;
        }
    }
    false
}

/// Whether an object with this next action offers the method of one of these messages.
pub fn any_offered(queue: &MessageQueue, work: &Continuation<'_>, act: &Act<'_>) -> bool
    ensures { result ≡ list_any (λ m. is_some (offer_act act.now (now_names work.now.next) (now_choices work.now.next) m.method)) (queued queue.now) }
{
    let (early, later) = queue.parts();
    if any_early(early, work, act) {
        return true;
    }
    any_later(later, work, act)
}

/// Puts a message last in the queue of its pair. Reports `AllocError` if memory runs out; the messages are then
/// unspecified.
pub fn post(
    alloc: Global,
    messages: &mut BTreeMap<(u32, u32), MessageQueue>,
    sender: u32,
    receiver: u32,
    mail: Mail,
) -> Result<(), AllocError>
    ensures { OnOk result
        (posts messages.new.entries ≡ put pair_cmp (sender, receiver) (list_at pair_cmp (sender, receiver) (posts messages.old.entries) ++ message_of mail ∷ []) (posts messages.old.entries)) }
{
    match messages.get_mut(&(sender, receiver)) {
        Some(queue) => {
            queue.push(mail)?;
            Ok(())
        }
        None => {
            let mut queue = MessageQueue::new(alloc);
            queue.push(mail)?;
            messages.insert((sender, receiver), queue)?;
            Ok(())
        }
    }
}

/// Removes the first message for this method. Reports whether the queue is then empty.
fn drop_of(queue: &mut MessageQueue, method: NameId) -> bool
    ensures rest { queued queue.new ≡ without_of method.0 (queued queue.old) }
    ensures none { result ≡ true → queue.new ≡ [] }
    ensures some { result ≡ false → queue.new ≡ [] → ⊥ }
{
    let _ = queue.take_of(method);
    queue.is_empty()
}

/// Removes the first message for this method from the queue of its pair. A queue that becomes empty is removed.
pub fn unpost(
    messages: &mut BTreeMap<(u32, u32), MessageQueue>,
    sender: u32,
    receiver: u32,
    method: NameId,
)
    ensures { posts messages.new.entries
        ≡ put_list pair_cmp (sender, receiver) (without_of method.0 (list_at pair_cmp (sender, receiver) (posts messages.old.entries))) (posts messages.old.entries) }
{
    match messages.get_mut(&(sender, receiver)) {
        None => return,
        Some(queue) => {
            if !drop_of(queue, method) {
                return;
            }
        }
    }
    let _ = messages.remove(&(sender, receiver));
}
