//! The messages of all slots in queues by slot and method.
ghost use Rattle.std.specs.Prelude.{◌≡◌, ◌<◌, ◌≤◌, ◌^◌, [], ◌∷◌, ◌++◌, ◌↔◌, length, position, remove, replicate, slice_get, is_some, Some, IsErr, OnOk, IfErr, IfOk};
ghost use Rattle.slot_queues.specs.Mail.{mail, lengths, box_of, with_box, is_named, IsTaken};

use crate::{Lanes, Message};
use run_types::{List, NameId};
use std::alloc::{AllocError, Global};
use std::marker::Model;

/// The messages of all slots, for slots below `objects`. A look-up tries eight shared queues for each name, or all
/// shared queues with messages to the slot if these are fewer than the names. If it finds no message, it walks along
/// the late queue of the slot. That is empty unless a message found no shared queue.
pub struct Queues {
    lanes: Lanes,
    objects: u32,
}

impl Model for Queues {
    ghost use Rattle.std.specs.Prelude.{◌≡◌};
    ghost use Rattle.slot_queues.specs.declared.Message.{Message as OneMessage};
    ghost use Rattle.slot_queues.specs.Mail.{Mail, mail};

    ghost Value = { Mail OneMessage };

    ghost use Rattle.slot_queues.specs.Lanes.{IsKept, boxes_in, shared};
    ghost use Rattle.slot_queues.specs.Waiting.{IsListedIn};

    ghost view = { λ m. mail (boxes_in m.lanes.pool.lists (shared m.lanes.cells) m.objects) m.lanes.pool.cells };

    ghost invariant = { λ m. ((m.lanes.pool.cells ≡ m.lanes.cells) × IsListedIn m.lanes) × IsKept m.lanes.pool.lists m.lanes.cells m.lanes.next m.objects };
}

impl Queues {
    /// Makes empty queues with cells for `cells` messages, for slots below `objects`. Returns `Err` if memory runs out.
    pub(crate) fn make(alloc: Global, objects: u32, cells: u32) -> Result<Queues, AllocError>
        ensures { IfOk result (λ m. m ≡ mail (replicate objects []) cells) }
    {
        let lanes = Lanes::make(alloc, objects, cells)?;
        Ok(Queues { lanes, objects })
    }

    /// Appends a message to those of a slot. Returns the message as the error, and changes nothing, if every cell is in
    /// use.
    pub(crate) fn post(&mut self, to: u32, message: Message) -> Result<(), Message>
        requires { to < length self.old.boxes }
        ensures full { IsErr result ↔ (lengths self.old.boxes ≡ self.old.cells) }
        ensures ok { OnOk result (self.new ≡ with_box self.old to (box_of self.old to ++ message ∷ [])) }
        ensures err { IfErr result (λ back. (back ≡ message) × (self.new ≡ self.old)) }
    {
        self.lanes.post(to, message)
    }

    /// The index of the first message of a slot whose method is one of `names`, counted from 0. None if there is none.
    /// It passes over all messages.
    pub(crate) fn first(&self, to: u32, names: &List<NameId>) -> Option<usize>
        requires { to < length self.now.boxes }
        ensures { result ≡ position (λ m. is_named names.now m.method) (box_of self.now to) }
    {
        let _free = self.lanes.pool.free();
        let names = names.items();
        match self.lanes.earliest(to, names) {
            Some(found) => Some(self.lanes.rank(to, found.1)),
            None => match self.lanes.late_place(to, names) {
                Some(place) => Some(self.lanes.rank(to, self.lanes.next) + place),
                None => None,
            },
        }
    }

    /// Removes the message at index `place` from a slot. The others keep their order. It passes over all messages.
    pub(crate) fn take(&mut self, to: u32, place: usize) -> Message
        requires { (to < length self.old.boxes) × (place < length (box_of self.old to)) }
        ensures message { slice_get (box_of self.old to) place ≡ Some result }
        ensures boxes { self.new ≡ with_box self.old to (remove (box_of self.old to) place) }
    {
        let _free = self.lanes.pool.free();
        let early = self.lanes.rank(to, self.lanes.next);
        if early <= place {
            return self.lanes.remove_late(to, place - early);
        }
        let stamp = self.lanes.stamp_at(to, place);
        match self.lanes.find(stamp) {
            Some(found) => self.lanes.remove(found.0, found.1),
            None => unreachable!(),
        }
    }

    /// Removes the first message of a slot whose method is one of `names`. The others keep their order. Returns None,
    /// and changes nothing, if there is none. It looks up the names, or the methods that wait, whichever are fewer.
    pub(crate) fn take_first(&mut self, to: u32, names: &[NameId]) -> Option<Message>
        requires { to < length self.old.boxes }
        ensures { IsTaken names.now self.old to result self.new }
    {
        match self.lanes.earliest(to, names) {
            Some(found) => self.lanes.pop(found.0),
            None => match self.lanes.late_place(to, names) {
                Some(place) => Some(self.lanes.remove_late(to, place)),
                None => None,
            },
        }
    }

    /// Reports whether a slot has a message whose method is one of `names`. It looks up the names, or the methods that
    /// wait, whichever are fewer.
    pub(crate) fn has_first(&self, to: u32, names: &[NameId]) -> bool
        requires { to < length self.now.boxes }
        ensures { result ≡ is_some (position (λ m. is_named names.now m.method) (box_of self.now to)) }
    {
        if self.lanes.earliest(to, names).is_some() {
            return true;
        }
        self.lanes.late_place(to, names).is_some()
    }

    /// The number of messages of all slots together, at most the cells.
    pub(crate) fn count(&self) -> u32
        ensures count { result ≡ lengths self.now.boxes }
        ensures within { lengths self.now.boxes ≤ self.now.cells }
        ensures small { self.now.cells < 2 ^ 32 }
    {
        self.lanes.cells - self.lanes.pool.free() as u32
    }
}

impl Drop for Queues {
    fn drop(self) {
        let Queues {
            lanes: _,
            objects: _,
        } = self;
    }
}
