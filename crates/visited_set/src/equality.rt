//! Equality and hashes of numbered configurations.
ghost use Rattle.std.specs.Prelude.{◌≡◌, true};
ghost use Rattle.visited_set.specs.Rows.{row_of, stored_row};

use crate::numbered::{Numbered, Queue, Stored};
use flat_lists::is_packed;
use std::hash::{FoldHasher, Hasher};

fn same_queue(left: Queue, right: Queue) -> bool
    ensures { result ≡ true → left ≡ right }
{
    left.sender == right.sender && left.receiver == right.receiver && left.mails == right.mails
}

fn same_queues(left: &[Queue], right: &[Queue]) -> bool
    ensures { result ≡ true → left.now ≡ right.now }
{
    if left.len() != right.len() {
        return false;
    }
    for (i, queue) in left.iter().enumerate() {
        if !same_queue(*queue, right[i]) {
            return false;
        }
    }
    true
}

/// Whether two configurations, their next names and the numbers of what was written are the same.
pub fn same_row(left: &Stored<'_>, right: &Numbered<'_>) -> bool
    ensures { result ≡ true → stored_row left.now ≡ row_of right.now }
{
    left.next == right.next
        && left.written == right.written
        && is_packed(left.objects, right.objects)
        && same_queues(left.queues, right.queues)
}

/// The hash of a configuration, for look-ups. Equal ones have equal hashes. No proof depends on it.
pub fn mark(numbered: &Numbered<'_>) -> u64 {
    let mut mark = FoldHasher::default();
    mark.write_u32(numbered.next);
    mark.write_u32(numbered.written);
    for number in numbered.objects {
        mark.write_u32(*number);
    }
    for queue in numbered.queues {
        mark.write_u32(queue.sender);
        mark.write_u32(queue.receiver);
        mark.write_u32(queue.mails);
    }
    mark.finish()
}
