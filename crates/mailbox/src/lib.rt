//! The messages of one node: a queue for each slot, in order of arrival.
//!
//! Does not know: packets, and when an object answers a message.
#![tactic(auto)]

ghost use Rattle.std.specs.Prelude.{◌≡◌, ◌<◌, ◌≤◌, [], ◌∷◌, ◌++◌, ◌↔◌, length, true, get_or, position, remove, replicate, slice_get, is_some, Some, IsErr, OnOk, IfErr, IfOk};
ghost use Rattle.cell_pool.specs.Lists.{free_of, list_of, with_list};
ghost use Rattle.slot_queues.specs.declared.Message.{Message as OneMessage};
ghost use Rattle.slot_queues.specs.Mail.{mail, lengths, box_of, with_box, is_named, IsTaken};

use cell_pool::CellPool;
use run_types::{List, NameId};
pub use slot_queues::Message;
use slot_queues::{Behind, is_one_of};
use std::alloc::{AllocError, Global};
use std::marker::Model;

/// The messages of all objects of a node, in a fixed number of cells, of which `free` are in no use. Slots are numbered
/// from 0. The first messages of a slot are in its early list, and the later ones behind. Only `make` allocates.
pub struct Mailbox {
    early: CellPool<Message>,
    behind: Behind,
    free: u32,
    cells: u32,
}

/// The largest number of messages in the early list of a slot.
const EARLY: usize = 8;

impl Model for Mailbox {
    ghost use Rattle.slot_queues.specs.declared.Message.{Message as OneMessage};
    ghost use Rattle.slot_queues.specs.Mail.{Mail, mail};

    ghost Value = { Mail OneMessage };

    ghost use Rattle.mailbox.specs.Early.{append_each, IsInFront};

    ghost view = { λ m. mail (append_each m.early.lists m.behind.boxes) m.cells };

    ghost invariant = { λ m. IsInFront m.early m.behind m.free m.cells };
}

impl Mailbox {
    /// Makes an empty mailbox with cells for `cells` messages, for slots below `objects`. Returns `Err` if memory runs
    /// out.
    pub fn make(alloc: Global, objects: u32, cells: u32) -> Result<Mailbox, AllocError>
        ensures { IfOk result (λ m. m ≡ mail (replicate objects []) cells) }
    {
        let early = CellPool::make(alloc, cells as usize, objects as usize)?;
        let behind = Behind::make(alloc, objects, cells)?;
        Ok(Mailbox {
            early,
            behind,
            free: cells,
            cells,
        })
    }

    /// Appends a message to those of a slot. Returns the message as the error, and changes nothing, if every cell is in
    /// use.
    #[inline(always)]
    pub fn post(&mut self, to: u32, message: Message) -> Result<(), Message>
        requires { to < length self.old.boxes }
        ensures full { IsErr result ↔ (lengths self.old.boxes ≡ self.old.cells) }
        ensures ok { OnOk result (self.new ≡ with_box self.old to (box_of self.old to ++ message ∷ [])) }
        ensures err { IfErr result (λ back. (back ≡ message) × (self.new ≡ self.old)) }
    {
        if self.free == 0 {
            return Err(message);
        }
        self.free -= 1;
        if is_early(&self.early, &self.behind, to) {
            push_early(&mut self.early, to, message);
            return Ok(());
        }
        self.behind.push(to, message);
        Ok(())
    }

    /// The index of the first message of a slot whose method is one of `names`, counted from 0. None if there is none.
    /// It passes over all messages.
    pub fn first(&self, to: u32, names: &List<NameId>) -> Option<usize>
        requires { to < length self.now.boxes }
        ensures { result ≡ position (λ m. is_named names.now m.method) (box_of self.now to) }
    {
        match early_place(&self.early, to, names.items()) {
            Some(place) => Some(place),
            None => match self.behind.first(to, names) {
                Some(place) => Some(self.early.len(to as usize) + place),
                None => None,
            },
        }
    }

    /// Removes the message at index `place` from a slot. The others keep their order. It passes over all messages.
    pub fn take(&mut self, to: u32, place: usize) -> Message
        requires { (to < length self.old.boxes) × (place < length (box_of self.old to)) }
        ensures message { slice_get (box_of self.old to) place ≡ Some result }
        ensures boxes { self.new ≡ with_box self.old to (remove (box_of self.old to) place) }
    {
        let early = self.early.len(to as usize);
        self.free += 1;
        if place < early {
            return self.early.remove(to as usize, place);
        }
        self.behind.take(to, place - early)
    }

    /// Removes the first message of a slot whose method is one of `names`. The others keep their order. Returns None,
    /// and changes nothing, if there is none. It looks up the names, or the methods that wait, whichever are fewer.
    pub fn take_first(&mut self, to: u32, names: &[NameId]) -> Option<Message>
        requires { to < length self.old.boxes }
        ensures { IsTaken names.now self.old to result self.new }
    {
        match early_place(&self.early, to, names) {
            Some(place) => {
                self.free += 1;
                Some(self.early.remove(to as usize, place))
            }
            None => {
                if self.behind.count_of(to) == 0 {
                    return None;
                }
                match self.behind.take_first(to, names) {
                    Some(message) => {
                        self.free += 1;
                        Some(message)
                    }
                    None => None,
                }
            }
        }
    }

    /// Reports whether a slot has a message whose method is one of `names`. It looks up the names, or the methods that
    /// wait, whichever are fewer.
    pub fn has_first(&self, to: u32, names: &[NameId]) -> bool
        requires { to < length self.now.boxes }
        ensures { result ≡ is_some (position (λ m. is_named names.now m.method) (box_of self.now to)) }
    {
        if early_place(&self.early, to, names).is_some() {
            return true;
        }
        if self.behind.count_of(to) == 0 {
            return false;
        }
        self.behind.has_first(to, names)
    }

    /// The number of messages of all slots together, at most the cells.
    pub fn count(&self) -> u32
        ensures count { result ≡ lengths self.now.boxes }
        ensures within { lengths self.now.boxes ≤ self.now.cells }
    {
        self.cells - self.free
    }
}

impl Drop for Mailbox {
    fn drop(self) {
        let Mailbox {
            early: _,
            behind: _,
            free: _,
            cells: _,
        } = self;
    }
}

/// Reports whether the next message of a slot is an early one: none is behind, and the early list has room.
fn is_early(early: &CellPool<Message>, behind: &Behind, to: u32) -> bool
    requires early { to < length early.now.lists }
    requires behind { to < length behind.now.boxes }
    ensures { result ≡ true → length (box_of behind.now to) ≡ 0 }
{
    behind.count_of(to) == 0 && early.len(to as usize) < EARLY
}

/// Appends an early message. Requires a free cell.
#[inline(always)]
fn push_early(early: &mut CellPool<Message>, to: u32, message: Message)
    requires slot { to < length early.old.lists }
    requires room { 0 < free_of early.old }
    ensures { early.new ≡ with_list early.old to (list_of early.old to ++ message ∷ []) }
{
    let _ = early.push_back(to as usize, message);
}

/// The index of the first early message of a slot whose method is one of the names.
fn early_place(early: &CellPool<Message>, to: u32, names: &[NameId]) -> Option<usize>
    requires { to < length early.now.lists }
    ensures { result ≡ position (λ (m : OneMessage). is_named names.now m.method) (get_or early.now.lists to []) }
{
    early.position(to as usize, |message| is_one_of(names, message.method))
}
