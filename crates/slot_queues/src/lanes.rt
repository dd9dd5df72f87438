//! The queues in which a mailbox keeps its messages.
ghost use Rattle.std.specs.Prelude.{◌≡◌, ℕ, ◌+◌, ◌-◌, ◌*◌, ◌^◌, ◌<◌, ◌≤◌, ◌↔◌, ◌⊎◌, true, [], ◌∷◌, ◌++◌, length, get_or, drop, position, remove, replicate, slice_get, option_map, ◌==◌, Some, MatchOption, IsErr, OnOk, IfErr, IfOk};
ghost use Rattle.cell_pool.specs.Lists.{pool, lengths, free_of, with_list};
ghost use Rattle.slot_queues.specs.declared.lanes.Stamped.{Stamped as OneStamped};
ghost use Rattle.run_types.specs.Tables.{Each};
ghost use Rattle.slot_queues.specs.Lanes.{shared, home_of, found_at, better_of, may_hold, IsChain, IsFound, IsNear, Keyed, Named, rank_in, joined, sizes};
ghost use Rattle.slot_queues.specs.Mail.{is_named};
ghost use Rattle.slot_queues.specs.Posted.{InShared, InLate};
ghost use Rattle.slot_queues.specs.Waiting.{named_stamp, IsListedIn, IsPosted, IsRemoved};

use crate::Message;
use cell_pool::CellPool;
use run_types::NameId;
use std::alloc::{AllocError, Global};

/// A message with its slot and its stamp. In the shared queues stamps rise in order of arrival.
#[derive(Clone, Copy)]
pub struct Stamped {
    pub(crate) stamp: u64,
    pub(crate) to: u32,
    pub(crate) message: Message,
}

/// The queues of a mailbox. The first `2 * cells + 8` are shared: a shared queue that is not empty has the messages of
/// one method to one slot. A method of a slot may use eight of them, from its home on, which is a hash of both. Then
/// there is a late queue for each slot, for messages that no shared queue takes. `waiting` has a list for each slot, of
/// the shared queues that have messages to it. `next` is the next stamp.
#[derive(Drop)]
pub struct Lanes {
    pub(crate) pool: CellPool<Stamped>,
    pub(crate) waiting: CellPool<usize>,
    pub(crate) cells: u32,
    pub(crate) next: u64,
}

/// The number of shared queues that a method of a slot may use.
const NEAR: usize = 8;

/// The number of shared queues.
fn shared_count(cells: u32) -> usize
    ensures { result ≡ shared cells }
{
    2 * cells as usize + NEAR
}

/// The first shared queue that may have the messages of a method to a slot.
fn home(cells: u32, to: u32, method: u32) -> usize
    ensures is { result ≡ home_of cells to method }
    ensures within { result ≤ 2 * cells }
{
    let mixed = to as u64 * 1640531527 + method as u64 * 625866897;
    (mixed % 2147483648 * (2 * cells as u64 + 1) / 2147483648) as usize
}

/// The one with the lesser stamp.
fn better(a: Option<(usize, u64)>, b: Option<(usize, u64)>) -> Option<(usize, u64)>
    ensures { result ≡ better_of a b }
{
    let Some(left) = a else {
        return b;
    };
    let Some(right) = b else {
        return a;
    };
    if right.1 < left.1 { b } else { a }
}

impl Lanes {
    /// Allocates the queues. Returns `Err` if memory runs out.
    pub(crate) fn make(alloc: Global, objects: u32, cells: u32) -> Result<Lanes, AllocError>
        ensures empty { IfOk result (λ l. (l.pool ≡ pool (replicate (shared cells + objects) []) cells) × (l.cells ≡ cells) × (l.next ≡ 0)) }
        ensures listed { IfOk result IsListedIn }
    {
        let queues = shared_count(cells);
        let pool = CellPool::make(alloc, cells as usize, queues + objects as usize)?;
        let waiting = CellPool::make(alloc, queues, objects as usize)?;
        Ok(Lanes {
            pool,
            waiting,
            cells,
            next: 0,
        })
    }

    /// The late queue of a slot.
    pub(crate) fn late(&self, to: u32) -> usize
        ensures { result ≡ shared self.now.cells + to }
    {
        shared_count(self.cells) + to as usize
    }

    /// The front message of a queue, by the queue and the stamp, if it is one of the method to the slot.
    fn front(&self, queue: usize, to: u32, method: u32) -> Option<(usize, u64)>
        requires { queue < length self.now.pool.lists }
        ensures { result ≡ found_at (get_or self.now.pool.lists queue []) queue to method }
    {
        if self.pool.len(queue) == 0 {
            return None;
        }
        let front = self.pool.get(queue, 0);
        if front.to == to && front.message.method.0 == method {
            return Some((queue, front.stamp));
        }
        None
    }

    /// The first message of a method to a slot in the shared queues.
    fn near(&self, to: u32, method: u32) -> Option<(usize, u64)>
        requires count { shared self.now.cells ≤ length self.now.pool.lists }
        requires chains { (q : ℕ) → q < shared self.now.cells → IsChain (get_or self.now.pool.lists q []) }
        requires near { (q : ℕ) → q < shared self.now.cells → Each (IsNear self.now.cells self.now.next q) (get_or self.now.pool.lists q []) }
        ensures { IsFound self.now.pool.lists (shared self.now.cells) (Keyed to method) result }
    {
        let home = home(self.cells, to, method);
        let mut best = None;
        for k in 0..NEAR {
            best = better(best, self.front(home + k, to, method));
        }
        best
    }

    /// The first message to a slot in the shared queues whose method is one of the names. It looks up the names, or the
    /// methods that wait, whichever are fewer.
    pub(crate) fn earliest(&self, to: u32, names: &[NameId]) -> Option<(usize, u64)>
        requires slot { shared self.now.cells + to < length self.now.pool.lists }
        requires chains { (q : ℕ) → q < shared self.now.cells → IsChain (get_or self.now.pool.lists q []) }
        requires near { (q : ℕ) → q < shared self.now.cells → Each (IsNear self.now.cells self.now.next q) (get_or self.now.pool.lists q []) }
        requires listed { IsListedIn self.now }
        ensures { IsFound self.now.pool.lists (shared self.now.cells) (Named to names.now) result }
    {
        if self.waiting.len(to as usize) < names.len() {
            return self.earliest_waiting(to, names);
        }
        self.earliest_named(to, names)
    }

    /// The same, by a look for each name.
    fn earliest_named(&self, to: u32, names: &[NameId]) -> Option<(usize, u64)>
        requires count { shared self.now.cells ≤ length self.now.pool.lists }
        requires chains { (q : ℕ) → q < shared self.now.cells → IsChain (get_or self.now.pool.lists q []) }
        requires near { (q : ℕ) → q < shared self.now.cells → Each (IsNear self.now.cells self.now.next q) (get_or self.now.pool.lists q []) }
        ensures { IsFound self.now.pool.lists (shared self.now.cells) (Named to names.now) result }
    {
        let mut best = None;
        for name in names {
            best = better(best, self.near(to, name.0));
        }
        best
    }

    /// The same, by a look at each shared queue that has messages to the slot.
    fn earliest_waiting(&self, to: u32, names: &[NameId]) -> Option<(usize, u64)>
        requires slot { to < length self.now.waiting.lists }
        requires chains { (q : ℕ) → q < shared self.now.cells → IsChain (get_or self.now.pool.lists q []) }
        requires listed { IsListedIn self.now }
        ensures { IsFound self.now.pool.lists (shared self.now.cells) (Named to names.now) result }
    {
        let slot = to as usize;
        match self
            .waiting
            .least(slot, |queue| self.named_stamp(*queue, to, names))
        {
            Some((place, stamp)) => Some((*self.waiting.get(slot, place), stamp)),
            None => None,
        }
    }

    /// The stamp of the front message of a shared queue, if it is to the slot and its method is one of the names.
    fn named_stamp(&self, queue: usize, to: u32, names: &[NameId]) -> Option<u64>
        requires { shared self.now.cells ≤ length self.now.pool.lists }
        ensures { result ≡ named_stamp self.now.pool.lists (shared self.now.cells) to names.now queue }
    {
        if queue >= shared_count(self.cells) || self.pool.len(queue) == 0 {
            return None;
        }
        let front = self.pool.get(queue, 0);
        if front.to == to && is_one_of(names, front.message.method) {
            return Some(front.stamp);
        }
        None
    }

    /// Reports whether a queue is empty, or its front message is one of the method to the slot.
    fn takes(&self, queue: usize, to: u32, method: u32) -> bool
        requires { queue < length self.now.pool.lists }
        ensures { result ≡ may_hold (get_or self.now.pool.lists queue []) to method }
    {
        if self.pool.len(queue) == 0 {
            return true;
        }
        let front = self.pool.get(queue, 0);
        front.to == to && front.message.method.0 == method
    }

    /// The shared queue for a new message of a method to a slot. None if it goes to the late queue.
    fn room(&self, to: u32, method: u32) -> Option<usize>
        requires { shared self.now.cells + to < length self.now.pool.lists }
        ensures { MatchOption result (Unit {0}) (λ q. (home_of self.now.cells to method ≤ q) × (q < home_of self.now.cells to method + 8) × (q < shared self.now.cells)
            × (may_hold (get_or self.now.pool.lists q []) to method ≡ true) × (self.now.next + 1 < 2 ^ 64) × (get_or self.now.pool.lists (shared self.now.cells + to) [] ≡ [])) }
    {
        if self.next == u64::MAX {
            return None;
        }
        if self.pool.len(self.late(to)) > 0 {
            return None;
        }
        let home = home(self.cells, to, method);
        for k in 0..NEAR {
            if self.takes(home + k, to, method) {
                return Some(home + k);
            }
        }
        None
    }

    /// Appends a message to a shared queue, or else to the late queue of its slot. Returns the message as the error,
    /// and changes nothing, if every cell is in use.
    pub(crate) fn post(&mut self, to: u32, message: Message) -> Result<(), Message>
        requires slot { shared self.old.cells + to < length self.old.pool.lists }
        requires listed { IsListedIn self.old }
        ensures listed { IsListedIn self.new }
        ensures full { IsErr result ↔ (free_of self.old.pool ≡ 0) }
        ensures within { lengths self.old.pool.lists ≤ self.old.pool.cells }
        ensures ok { OnOk result (InShared self.old self.new to message ⊎ InLate self.old self.new to message) }
        ensures err { IfErr result (λ back. (back ≡ message) × (self.new ≡ self.old)) }
    {
        let method = message.method.0;
        let stamped = Stamped {
            stamp: self.next,
            to,
            message,
        };
        match self.room(to, method) {
            Some(queue) => match self.pool.push_back(queue, stamped) {
                Ok(()) => {
                    self.next += 1;
                    self.list_first(queue, to);
                    Ok(())
                }
                Err(back) => Err(back.message),
            },
            None => {
                let late = self.late(to);
                match self.pool.push_back(late, stamped) {
                    Ok(()) => Ok(()),
                    Err(back) => Err(back.message),
                }
            }
        }
    }

    /// Lists a shared queue that got a message to a slot, if it is the only message of the queue.
    fn list_first(&mut self, queue: usize, to: u32)
        requires { IsPosted self.old queue to }
        ensures listed { IsListedIn self.new }
        ensures lanes { self.new ≡ record self.old { waiting = self.new.waiting } }
    {
        if self.pool.len(queue) == 1 {
            let _ = self.waiting.push_back(to as usize, queue);
        }
    }

    /// Removes a shared queue from the list of a slot, after one of its messages was removed, if it was the last one.
    fn unlist_empty(&mut self, queue: usize, to: u32)
        requires { IsRemoved self.old queue to }
        ensures listed { IsListedIn self.new }
        ensures lanes { self.new ≡ record self.old { waiting = self.new.waiting } }
    {
        if self.pool.len(queue) > 0 {
            return;
        }
        let slot = to as usize;
        match self.waiting.position(slot, |other| *other == queue) {
            Some(place) => {
                let _ = self.waiting.remove(slot, place);
            }
            None => {}
        }
    }

    /// Removes the front message of a shared queue.
    pub(crate) fn pop(&mut self, queue: usize) -> Option<Message>
        requires queue { queue < shared self.old.cells }
        requires chain { IsChain (get_or self.old.pool.lists queue []) }
        requires listed { IsListedIn self.old }
        ensures message { result ≡ option_map (λ (x : OneStamped). x.message) (slice_get (get_or self.old.pool.lists queue []) 0) }
        ensures lanes { self.new ≡ record self.old { pool = with_list self.old.pool queue (drop 1 (get_or self.old.pool.lists queue [])); waiting = self.new.waiting } }
        ensures listed { IsListedIn self.new }
    {
        match self.pool.pop_front(queue) {
            Some(stamped) => {
                self.unlist_empty(queue, stamped.to);
                Some(stamped.message)
            }
            None => None,
        }
    }

    /// The index of the first message of a late queue whose method is one of the names.
    pub(crate) fn late_place(&self, to: u32, names: &[NameId]) -> Option<usize>
        requires { shared self.now.cells + to < length self.now.pool.lists }
        ensures { result ≡ position (λ (x : OneStamped). is_named names.now x.message.method) (get_or self.now.pool.lists (shared self.now.cells + to) []) }
    {
        self.pool.position(self.late(to), |stamped| {
            is_one_of(names, stamped.message.method)
        })
    }

    /// Removes the message at index `place` of a late queue.
    pub(crate) fn remove_late(&mut self, to: u32, place: usize) -> Message
        requires queue { shared self.old.cells + to < length self.old.pool.lists }
        requires place { place < length (get_or self.old.pool.lists (shared self.old.cells + to) []) }
        ensures message { option_map (λ (x : OneStamped). x.message) (slice_get (get_or self.old.pool.lists (shared self.old.cells + to) []) place) ≡ Some result }
        ensures lanes { self.new ≡ record self.old { pool = with_list self.old.pool (shared self.old.cells + to) (remove (get_or self.old.pool.lists (shared self.old.cells + to) []) place) } }
        ensures listed { IsListedIn self.old → IsListedIn self.new }
    {
        let late = self.late(to);
        self.pool.remove(late, place).message
    }

    /// Removes the message at index `place` of a shared queue.
    pub(crate) fn remove(&mut self, queue: usize, place: usize) -> Message
        requires queue { queue < shared self.old.cells }
        requires place { place < length (get_or self.old.pool.lists queue []) }
        requires chain { IsChain (get_or self.old.pool.lists queue []) }
        requires listed { IsListedIn self.old }
        ensures message { option_map (λ (x : OneStamped). x.message) (slice_get (get_or self.old.pool.lists queue []) place) ≡ Some result }
        ensures lanes { self.new ≡ record self.old { pool = with_list self.old.pool queue (remove (get_or self.old.pool.lists queue []) place); waiting = self.new.waiting } }
        ensures listed { IsListedIn self.new }
    {
        let stamped = self.pool.remove(queue, place);
        self.unlist_empty(queue, stamped.to);
        stamped.message
    }

    /// The number of messages to a slot in a shared queue whose stamp is below `end`.
    fn below(&self, queue: usize, to: u32, end: u64) -> usize
        requires queue { queue < length self.now.pool.lists }
        requires chain { IsChain (get_or self.now.pool.lists queue []) }
        ensures { result ≡ rank_in to end (get_or self.now.pool.lists queue []) }
    {
        let len = self.pool.len(queue);
        if len == 0 {
            return 0;
        }
        let front = self.pool.get(queue, 0).to;
        if front != to {
            return 0;
        }
        match self.pool.position(queue, |stamped| stamped.stamp >= end) {
            Some(place) => place,
            None => len,
        }
    }

    /// The number of messages to a slot in the shared queues whose stamp is below `end`. It passes over all queues.
    pub(crate) fn rank(&self, to: u32, end: u64) -> usize
        requires count { shared self.now.cells ≤ length self.now.pool.lists }
        requires chains { (q : ℕ) → q < shared self.now.cells → IsChain (get_or self.now.pool.lists q []) }
        requires few { sizes self.now.pool.lists ≤ self.now.cells }
        ensures is { result ≡ rank_in to end (joined (shared self.now.cells) self.now.pool.lists) }
        ensures small { sizes self.now.pool.lists < 2 ^ 32 }
    {
        let mut count = 0;
        for queue in 0..shared_count(self.cells) {
            count += self.below(queue, to, end);
        }
        count
    }

    /// The stamp of the message at index `place` among those to a slot in the shared queues.
    pub(crate) fn stamp_at(&self, to: u32, place: usize) -> u64
        requires count { shared self.now.cells ≤ length self.now.pool.lists }
        requires chains { (q : ℕ) → q < shared self.now.cells → IsChain (get_or self.now.pool.lists q []) }
        requires few { sizes self.now.pool.lists ≤ self.now.cells }
        requires place { place < rank_in to self.now.next (joined (shared self.now.cells) self.now.pool.lists) }
        ensures low { rank_in to result (joined (shared self.now.cells) self.now.pool.lists) ≤ place }
        ensures high { place < rank_in to (result + 1) (joined (shared self.now.cells) self.now.pool.lists) }
    {
        let mut low = 0;
        let mut high = self.next;
        while low + 1 < high {
            let middle = low + (high - low) / 2;
            if self.rank(to, middle) <= place {
                low = middle;
            } else {
                high = middle;
            }
        }
        low
    }

    /// The message of the shared queues with this stamp, by its queue and its index there.
    pub(crate) fn find(&self, stamp: u64) -> Option<(usize, usize)>
        requires { shared self.now.cells ≤ length self.now.pool.lists }
        ensures { MatchOption result (Each (λ (x : OneStamped). x.stamp ≡ stamp → ⊥) (joined (shared self.now.cells) self.now.pool.lists))
            (λ f. (x : OneStamped) × (f.0 < shared self.now.cells) × (slice_get (get_or self.now.pool.lists f.0 []) f.1 ≡ Some x) × (x.stamp ≡ stamp)) }
    {
        for queue in 0..shared_count(self.cells) {
            match self.at(queue, stamp) {
                Some(place) => return Some((queue, place)),
                None => {}
            }
        }
        None
    }

    /// The index of the message of a queue with this stamp.
    fn at(&self, queue: usize, stamp: u64) -> Option<usize>
        requires { queue < length self.now.pool.lists }
        ensures { result ≡ position (λ (x : OneStamped). x.stamp == stamp) (get_or self.now.pool.lists queue []) }
    {
        self.pool.position(queue, |stamped| stamped.stamp == stamp)
    }
}

/// Reports whether the method is one of the names.
pub fn is_one_of(names: &[NameId], method: NameId) -> bool
    ensures { result ≡ is_named names.now method }
{
    names.iter().any(|name| name.0 == method.0)
}
