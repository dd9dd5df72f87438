//! The labels to try of a configuration, from its numbers.
ghost use Rattle.std.specs.Prelude.{◌≡◌, ◌<◌, ◌++◌, List, [], OnOk, get_or, length, map};
ghost use Rattle.run_types.specs.Message.{Message};
ghost use Rattle.reachability.specs.Labels.{labels_to_try, message_labels, object_labels, takes};
ghost use Rattle.pool_semantics.specs.Sound.{Sound};
ghost use Rattle.object_moves.specs.Rows.{AreWithin, objects_from};
ghost use Rattle.object_moves.specs.Tables.{known_states, table_program};
ghost use Rattle.visited_set.specs.Numbers.{AreListed, numbered, queue_messages};
ghost use Rattle.visited_set.specs.Rows.{row_of};

use crate::numbered::{Numbered, Queue};
use mail_numbers::MailLists;
use object_moves::MoveTable;
use pool_semantics::push_labels;
use run_types::Label;
use std::alloc::AllocError;

/// Adds a take of each message of this queue. An error means out of memory.
fn push_takes(into: &mut Vec<Label>, lists: &MailLists, queue: &Queue) -> Result<(), AllocError>
    requires { queue.now.mails < length lists.now }
    ensures { OnOk result (into.new.items ≡ into.old.items ++ takes (queue.now.sender, queue.now.receiver) (get_or lists.now queue.now.mails [])) }
{
    for at in 0..lists.count(queue.mails) {
        let mail = lists.mail(queue.mails, at);
        into.push(Label::Take {
            receiver: queue.receiver,
            sender: queue.sender,
            method: mail.method,
            args: mail.args,
        })?;
    }
    Ok(())
}

/// Adds a take of each message of these queues. An error means out of memory.
fn push_all_takes(
    into: &mut Vec<Label>,
    lists: &MailLists,
    queues: &[Queue],
) -> Result<(), AllocError>
    requires { AreListed lists.now queues.now }
    ensures { OnOk result (into.new.items ≡ into.old.items ++ message_labels (map (queue_messages lists.now) queues.now)) }
{
    for queue in queues {
        push_takes(into, lists, queue)?;
    }
    Ok(())
}

/// Adds the labels of the next action of each object. A new object gets the name `entry.next`. An error means out of
/// memory, or that there are more objects than names.
fn push_own(
    into: &mut Vec<Label>,
    moves: &MoveTable<'_>,
    entry: &Numbered<'_>,
) -> Result<(), AllocError>
    requires within { AreWithin (known_states moves.now) entry.now.objects.now }
    requires sound { (ms : List (List Message)) × Sound (table_program moves.now) (numbered (known_states moves.now) ms (row_of entry.now)) }
    ensures { OnOk result (into.new.items ≡ into.old.items ++ object_labels (table_program moves.now) entry.now.next (objects_from 0 (known_states moves.now) entry.now.objects.now)) }
{
    for (i, number) in entry.objects.iter().enumerate() {
        let Some(thing) = moves.get(*number) else {
            unreachable!();
        };
        let Ok(name) = u32::try_from(i) else {
            return Err(AllocError);
        };
        push_labels(moves.program(), name, thing, entry.next, into)?;
    }
    Ok(())
}

/// Adds the labels to try of this configuration. An error means out of memory, or that there are more objects than
/// names.
pub fn push_to_try(
    into: &mut Vec<Label>,
    moves: &MoveTable<'_>,
    lists: &MailLists,
    entry: &Numbered<'_>,
) -> Result<(), AllocError>
    requires within { AreWithin (known_states moves.now) entry.now.objects.now }
    requires listed { AreListed lists.now entry.now.queues.now }
    requires sound { Sound (table_program moves.now) (numbered (known_states moves.now) lists.now (row_of entry.now)) }
    ensures { OnOk result (into.new.items ≡ into.old.items ++ labels_to_try (table_program moves.now) entry.now.next (numbered (known_states moves.now) lists.now (row_of entry.now))) }
{
    push_own(into, moves, entry)?;
    push_all_takes(into, lists, entry.queues)
}
