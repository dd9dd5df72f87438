//! The messages behind the early ones, and their number for each slot.
ghost use Rattle.std.specs.Prelude.{◌≡◌, ◌<◌, ◌++◌, ◌∷◌, [], length, position, remove, replicate, slice_get, is_some, Some, IsErr, OnOk, IfErr, IfOk};
ghost use Rattle.slot_queues.specs.Mail.{mail, lengths, box_of, with_box, is_named, IsTaken};

use crate::{Message, Queues};
use run_types::{List, NameId};
use std::alloc::{AllocError, Global};
use std::marker::Model;

/// The messages of all slots behind their early ones. `counts` has their number for each slot, so a slot that has none
/// costs one comparison. The other functions are not inlined, since few messages come here.
pub struct Behind {
    queues: Queues,
    counts: Vec<u32>,
}

impl Model for Behind {
    ghost use Rattle.std.specs.Prelude.{◌≡◌, length, map};
    ghost use Rattle.slot_queues.specs.declared.Message.{Message as OneMessage};
    ghost use Rattle.slot_queues.specs.Mail.{Mail};

    ghost Value = { Mail OneMessage };

    ghost view = { λ b. b.queues };

    ghost invariant = { λ b. b.counts.items ≡ map length b.queues.boxes };
}

impl Behind {
    /// Makes empty queues with cells for `cells` messages, for slots below `objects`. Returns `Err` if memory runs out.
    pub fn make(alloc: Global, objects: u32, cells: u32) -> Result<Behind, AllocError>
        ensures { IfOk result (λ m. m ≡ mail (replicate objects []) cells) }
    {
        let queues = Queues::make(alloc, objects, cells)?;
        let counts = vec![in alloc; 0u32; objects as usize]?;
        Ok(Behind { queues, counts })
    }

    /// The number of messages of a slot.
    pub fn count_of(&self, to: u32) -> u32
        requires { to < length self.now.boxes }
        ensures { result ≡ length (box_of self.now to) }
    {
        self.counts[to as usize]
    }

    /// Appends a message to those of a slot. Requires a free cell.
    #[inline(never)]
    pub fn push(&mut self, to: u32, message: Message)
        requires slot { to < length self.old.boxes }
        requires room { lengths self.old.boxes < self.old.cells }
        ensures { self.new ≡ with_box self.old to (box_of self.old to ++ message ∷ []) }
    {
        let _count = self.queues.count();
        if self.queues.post(to, message).is_ok() {
            self.counts[to as usize] += 1;
        }
    }

    /// The index of the first message of a slot whose method is one of `names`, counted from 0. None if there is none.
    #[inline(never)]
    pub fn first(&self, to: u32, names: &List<NameId>) -> Option<usize>
        requires { to < length self.now.boxes }
        ensures { result ≡ position (λ m. is_named names.now m.method) (box_of self.now to) }
    {
        self.queues.first(to, names)
    }

    /// Removes the message at index `place` from a slot. The others keep their order.
    #[inline(never)]
    pub fn take(&mut self, to: u32, place: usize) -> Message
        requires { (to < length self.old.boxes) × (place < length (box_of self.old to)) }
        ensures message { slice_get (box_of self.old to) place ≡ Some result }
        ensures boxes { self.new ≡ with_box self.old to (remove (box_of self.old to) place) }
    {
        let message = self.queues.take(to, place);
        self.counts[to as usize] -= 1;
        message
    }

    /// Removes the first message of a slot whose method is one of `names`. The others keep their order. Returns None,
    /// and changes nothing, if there is none.
    #[inline(never)]
    pub fn take_first(&mut self, to: u32, names: &[NameId]) -> Option<Message>
        requires { to < length self.old.boxes }
        ensures { IsTaken names.now self.old to result self.new }
    {
        match self.queues.take_first(to, names) {
            Some(message) => {
                self.counts[to as usize] -= 1;
                Some(message)
            }
            None => None,
        }
    }

    /// Reports whether a slot has a message whose method is one of `names`.
    #[inline(never)]
    pub fn has_first(&self, to: u32, names: &[NameId]) -> bool
        requires { to < length self.now.boxes }
        ensures { result ≡ is_some (position (λ m. is_named names.now m.method) (box_of self.now to)) }
    {
        self.queues.has_first(to, names)
    }
}

impl Drop for Behind {
    fn drop(self) {
        let Behind {
            queues: _,
            counts: _,
        } = self;
    }
}
