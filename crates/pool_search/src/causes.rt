//! Why a search ended that does not know the answer: what it notes of objects. No proof depends on it.
ghost use Rattle.std.specs.Prelude.{◌≡◌, IfSome};

use crate::queries::{Mailbox, Member};
use pool_semantics::State;
use run_types::NameId;
use std::alloc::AllocError;
use std::collections::BTreeMap;

/// The object of this name with its class. None if it does not exist.
pub fn member(state: &State<'_>, object: u32) -> Option<Member>
    ensures { IfSome result (λ m. m.object ≡ object) }
{
    let thing = state.objects.get(&object)?;
    Some(Member {
        object,
        class: NameId(thing.class),
    })
}

/// The number of messages to each object that has one. An error means out of memory.
fn counts(state: &State<'_>) -> Result<BTreeMap<u32, usize>, AllocError> {
    let mut counts = BTreeMap::new(state.alloc);
    for ((_, receiver), queue) in state.messages.iter() {
        let (early, behind) = queue.parts();
        let before: usize = match counts.get(receiver) {
            Some(count) => *count,
            None => 0,
        };
        let more = early.len().saturating_add(behind.len());
        counts.insert(*receiver, before.saturating_add(more))?;
    }
    Ok(counts)
}

/// The mailbox with the most messages, of several the one of the first object. None if there is no message. An error means
/// out of memory.
pub fn fullest(state: &State<'_>) -> Result<Option<Mailbox>, AllocError> {
    let counts = counts(state)?;
    let mut found: Option<Mailbox> = None;
    for (receiver, messages) in counts.iter() {
        if let Some(known) = found {
            if *messages <= known.messages {
                continue;
            }
        }
        if let Some(owner) = member(state, *receiver) {
            found = Some(Mailbox {
                owner,
                messages: *messages,
            });
        }
    }
    Ok(found)
}
