//! From a configuration to its numbers.
ghost use Rattle.std.specs.Prelude.{◌≡◌, ◌-◌, ◌^◌, ◌<◌, ◌≤◌, Ok, None, IfOk, IfSome, IsTrue, length, map, take};
ghost use Rattle.std.specs.List.{All};
ghost use Rattle.std.specs.Ordering.{nat_cmp};
ghost use Rattle.std.specs.FinMap.Entries.{is_sorted};
ghost use Rattle.run_types.specs.Tables.{pair_cmp};
ghost use Rattle.stepper_objects.specs.ObjectStates.{things};
ghost use Rattle.pool_semantics.specs.Mails.{posts};
ghost use Rattle.object_moves.specs.Tables.{known_states, table_program};
ghost use Rattle.object_moves.specs.Rows.{objects_from};
ghost use Rattle.visited_set.specs.Numbers.{AreListed, AreNamedFrom, queue_messages};

use crate::numbered::Queue;
use mail_numbers::MailLists;
use message_queue::{Mail, MessageQueue};
use object_moves::MoveTable;
use std::alloc::{AllocError, Global};
use std::collections::BTreeMap;
use stepper_objects::object_state::ObjectState;

/// The numbers of the states of these objects; new states are added to the table.
/// None if the table is full, or if the names are not 0, 1, 2, .. An error means out of memory.
pub fn numbers_of<'a>(
    alloc: Global,
    table: &mut MoveTable<'a>,
    objects: &BTreeMap<u32, ObjectState<'a>>,
) -> Result<Option<Vec<u32>>, AllocError>
    ensures program { table_program table.new ≡ table_program table.old }
    ensures grows { take (length (known_states table.old)) (known_states table.new) ≡ known_states table.old }
    ensures within { IfOk result (λ o. IfSome o (λ v. All (λ n. n < length (known_states table.new)) v.items)) }
    ensures objects { IfOk result (λ o. IfSome o (λ v. objects_from 0 (known_states table.new) v.items ≡ things objects.now.entries)) }
    ensures sorted { IfOk result (λ o. IsTrue (is_sorted nat_cmp (things objects.now.entries))) }
    ensures full { result ≡ Ok None → AreNamedFrom 0 (things objects.now.entries) → 2 ^ 32 - 1 ≤ length (known_states table.new) }
{
    let mut numbers = Vec::with_capacity(alloc, objects.len())?;
    for (name, thing) in objects.iter() {
        if *name as usize != numbers.len() {
            return Ok(None);
        }
        match table.number_of(thing)? {
            Some(number) => numbers.push(number)?,
            None => return Ok(None),
        }
    }
    Ok(Some(numbers))
}

fn mails_of(alloc: Global, queue: &MessageQueue) -> Result<Vec<Mail>, AllocError>
    ensures { IfOk result (λ v. v.items ≡ queue.now) }
{
    let mut mails = Vec::new(alloc);
    queue.push_to(&mut mails)?;
    Ok(mails)
}

/// The queues of these messages, in the order of their pairs; new lists of messages are added to the table. None if the
/// table is full. An error means out of memory, or an error of `MailLists::number_of`.
pub fn queues_of(
    alloc: Global,
    table: &mut MailLists,
    messages: &BTreeMap<(u32, u32), MessageQueue>,
) -> Result<Option<Vec<Queue>>, AllocError>
    ensures grows { take (length table.old) table.new ≡ table.old }
    ensures listed { IfOk result (λ o. IfSome o (λ qs. AreListed table.new qs.items)) }
    ensures queues { IfOk result (λ o. IfSome o (λ qs. map (queue_messages table.new) qs.items ≡ posts messages.now.entries)) }
    ensures sorted { IfOk result (λ o. IsTrue (is_sorted pair_cmp (posts messages.now.entries))) }
    ensures full { result ≡ Ok None → 2 ^ 32 ≤ length table.new }
{
    let mut queues = Vec::with_capacity(alloc, messages.len())?;
    for (pair, queue) in messages.iter() {
        let mails = mails_of(alloc, queue)?;
        match table.number_of(mails.as_slice())? {
            Some(mails) => queues.push(Queue {
                sender: pair.0,
                receiver: pair.1,
                mails,
            })?,
            None => return Ok(None),
        }
    }
    Ok(Some(queues))
}
