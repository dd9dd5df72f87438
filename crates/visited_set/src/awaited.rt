//! Whether only objects that wait for an object know its name, from the numbers of a configuration.
ghost use Rattle.std.specs.Prelude.{◌≡◌, ◌<◌, ℕ, List, [], get_or, length, map, option_map, true, false, Some};
ghost use Rattle.run_types.specs.Message.{Message};
ghost use Rattle.run_types.specs.Tables.{Each, Pair};
ghost use Rattle.run_types.specs.declared.types.Label.{Label};
ghost use Rattle.pool_relation.specs.Action.{Object};
ghost use Rattle.pool_relation.specs.Configuration.{Configuration, object_of};
ghost use Rattle.pool_relation.specs.Transition.{transition};
ghost use Rattle.reachability.specs.Search.{IsInOrder, IsFaulty};
ghost use Rattle.search_laws.specs.Stubborn.{IsAwaited, is_served};
ghost use Rattle.stepper_objects.specs.ObjectStates.{thing_object};
ghost use Rattle.known_names.specs.Awaited.{IsFit, is_message_other, is_queue_fit};
ghost use Rattle.object_moves.specs.Rows.{AreWithin, objects_from};
ghost use Rattle.object_moves.specs.Tables.{known_states, table_program};
ghost use Rattle.visited_set.specs.Numbers.{AreListed, numbered, queue_messages};
ghost use Rattle.visited_set.specs.Rows.{row_of};
ghost use Rattle.std.specs.List.{list_all};

use crate::numbered::{Numbered, Queue};
use known_names::{OtherNames, awaits, is_fit, is_mail_other, is_serving};
use mail_numbers::MailLists;
use object_moves::MoveTable;
use stepper_objects::object_state::ObjectState;

/// The object of this name in a row of state numbers.
fn object_at<'t, 'a>(
    moves: &'t MoveTable<'a>,
    numbers: &[u32],
    name: u32,
) -> Option<&'t ObjectState<'a>>
    requires { AreWithin (known_states moves.now) numbers.now }
    ensures { (c : Configuration) → c.objects ≡ objects_from 0 (known_states moves.now) numbers.now → option_map (λ t. thing_object t.now) result ≡ object_of c name }
{
    let number = numbers.get(name as usize)?;
    moves.get(*number)
}

/// Whether each object is the one that is awaited, awaits it, or knows only other names.
fn are_objects_fit(moves: &MoveTable<'_>, numbers: &[u32], others: OtherNames) -> bool
    ensures { result ≡ true → AreWithin (known_states moves.now) numbers.now
        → Each (λ (e : ℕ × Object). IsFit (table_program moves.now) others.next others.name e.0 e.1) (objects_from 0 (known_states moves.now) numbers.now) }
{
    for (i, number) in numbers.iter().enumerate() {
        let Some(thing) = moves.get(*number) else {
            return false;
        };
        let Ok(name) = u32::try_from(i) else {
            return false;
        };
        if !is_fit(moves.program(), others, name, thing) {
            return false;
        }
    }
    true
}

/// Whether each message of the list with this number has only other names.
fn are_mails_other(others: OtherNames, lists: &MailLists, list: u32) -> bool
    requires { list < length lists.now }
    ensures { result ≡ list_all (is_message_other others.next others.name) (get_or lists.now list []) }
{
    for at in 0..lists.count(list) {
        if !is_mail_other(others, lists.mail(list, at)) {
            return false;
        }
    }
    true
}

/// Whether the receiver of a queue is the object that is awaited or awaits it, or its messages have only other names.
fn is_queue_fit(
    moves: &MoveTable<'_>,
    lists: &MailLists,
    numbers: &[u32],
    others: OtherNames,
    queue: &Queue,
) -> bool
    requires within { AreWithin (known_states moves.now) numbers.now }
    requires listed { queue.now.mails < length lists.now }
    ensures { result ≡ true → (c : Configuration) → c.objects ≡ objects_from 0 (known_states moves.now) numbers.now
        → is_queue_fit (table_program moves.now) others.next others.name c queue.now.receiver (get_or lists.now queue.now.mails []) ≡ true }
{
    if queue.receiver == others.name {
        return true;
    }
    if let Some(thing) = object_at(moves, numbers, queue.receiver) {
        if awaits(moves.program(), others.name, queue.receiver, thing) {
            return true;
        }
    }
    are_mails_other(others, lists, queue.mails)
}

/// The same for each queue.
fn are_queues_fit(
    moves: &MoveTable<'_>,
    lists: &MailLists,
    numbers: &[u32],
    others: OtherNames,
    queues: &[Queue],
) -> bool
    requires within { AreWithin (known_states moves.now) numbers.now }
    requires listed { AreListed lists.now queues.now }
    ensures { result ≡ true → (c : Configuration) → c.objects ≡ objects_from 0 (known_states moves.now) numbers.now
        → Each (λ (e : Pair × List Message). is_queue_fit (table_program moves.now) others.next others.name c e.0.1 e.1 ≡ true) (map (queue_messages lists.now) queues.now) }
{
    for queue in queues {
        if !is_queue_fit(moves, lists, numbers, others, queue) {
            return false;
        }
    }
    true
}

/// Whether the object is at an `answer` or a `select`, and only objects know its name that wait for it: each of them
/// has met an error, has finished, or is at a call of it.
pub fn is_only_awaited(
    moves: &MoveTable<'_>,
    lists: &MailLists,
    entry: &Numbered<'_>,
    object: u32,
) -> bool
    requires within { AreWithin (known_states moves.now) entry.now.objects.now }
    requires listed { AreListed lists.now entry.now.queues.now }
    ensures { result ≡ true → IsInOrder (numbered (known_states moves.now) lists.now (row_of entry.now))
        → (l : Label) (d : Configuration) → is_served object l ≡ true → transition (table_program moves.now) (numbered (known_states moves.now) lists.now (row_of entry.now)) l ≡ Some d
        → IsAwaited (table_program moves.now) entry.now.next object (numbered (known_states moves.now) lists.now (row_of entry.now)) }
{
    if object >= entry.next {
        return false;
    }
    let Some(thing) = object_at(moves, entry.objects, object) else {
        return false;
    };
    if !is_serving(moves.program(), object, thing) {
        return false;
    }
    let others = OtherNames {
        next: entry.next,
        name: object,
    };
    if !are_objects_fit(moves, entry.objects, others) {
        return false;
    }
    are_queues_fit(moves, lists, entry.objects, others, entry.queues)
}

/// Whether one of these objects has met an error.
pub fn has_error(moves: &MoveTable<'_>, numbers: &[u32]) -> bool
    requires { AreWithin (known_states moves.now) numbers.now }
    ensures { result ≡ false → (c : Configuration) → c.objects ≡ objects_from 0 (known_states moves.now) numbers.now → ¬ (IsFaulty c) }
{
    for number in numbers {
        let Some(thing) = moves.get(*number) else {
            return true;
        };
        if thing.fault.is_some() {
            return true;
        }
    }
    false
}
