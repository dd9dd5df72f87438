//! From the numbers of a configuration back to the configuration.
ghost use Rattle.std.specs.Prelude.{◌≡◌, ◌<◌, IfOk, IsTrue, length, map};
ghost use Rattle.std.specs.List.{All};
ghost use Rattle.std.specs.FinMap.Entries.{is_sorted};
ghost use Rattle.run_types.specs.Tables.{pair_cmp};
ghost use Rattle.stepper_objects.specs.ObjectStates.{things};
ghost use Rattle.pool_semantics.specs.Mails.{posts};
ghost use Rattle.object_moves.specs.Tables.{known_states};
ghost use Rattle.object_moves.specs.Rows.{objects_from};
ghost use Rattle.visited_set.specs.Numbers.{AreListed, queue_messages};

use crate::numbered::Queue;
use mail_numbers::MailLists;
use message_queue::MessageQueue;
use object_moves::MoveTable;
use search_states::copy;
use std::alloc::{AllocError, Global};
use std::collections::BTreeMap;
use stepper_objects::object_state::ObjectState;

/// Copies of the objects with these state numbers, under the names 0, 1, 2, .. Requires that the table has each number.
/// An error means out of memory, or that there are more objects than names.
pub fn objects_at<'a>(
    alloc: Global,
    table: &MoveTable<'a>,
    numbers: &[u32],
) -> Result<BTreeMap<u32, ObjectState<'a>>, AllocError>
    requires { All (λ n. n < length (known_states table.now)) numbers.now }
    ensures { IfOk result (λ m. things m.entries ≡ objects_from 0 (known_states table.now) numbers.now) }
{
    let mut objects = BTreeMap::new(alloc);
    for (i, number) in numbers.iter().enumerate() {
        let Some(thing) = table.get(*number) else {
            unreachable!();
        };
        let Ok(name) = u32::try_from(i) else {
            return Err(AllocError);
        };
        objects.insert(name, copy(alloc, thing)?)?;
    }
    Ok(objects)
}

/// The messages of these queues. Requires that the table has their lists, and that the queues are
/// in the order of their pairs. An error means out of memory.
pub fn messages_at(
    alloc: Global,
    table: &MailLists,
    queues: &[Queue],
) -> Result<BTreeMap<(u32, u32), MessageQueue>, AllocError>
    requires listed { AreListed table.now queues.now }
    requires sorted { IsTrue (is_sorted pair_cmp (map (queue_messages table.now) queues.now)) }
    ensures { IfOk result (λ m. posts m.entries ≡ map (queue_messages table.now) queues.now) }
{
    let mut messages = BTreeMap::new(alloc);
    let mut list = Vec::new(alloc);
    for queue in queues {
        table.read(queue.mails, &mut list)?;
        let mails = MessageQueue::of(alloc, list.as_slice())?;
        messages.insert((queue.sender, queue.receiver), mails)?;
    }
    Ok(messages)
}
