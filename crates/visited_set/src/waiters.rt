//! The objects that wait in calls in the entries of a search, and which of them can go on.
ghost use Rattle.std.specs.Prelude.{◌≡◌, ◌<◌, ◌++◌, ℕ, List, [], IfSome, OnOk, length, slice_get, slice_set, true, false};
ghost use Rattle.run_types.specs.Tables.{Each};
ghost use Rattle.pool_relation.specs.Configuration.{Configuration};
ghost use Rattle.object_moves.specs.Rows.{AreWithin, objects_from};
ghost use Rattle.object_moves.specs.Tables.{known_states, table_program};
ghost use Rattle.reachability.specs.Search.{WaitsAt};
ghost use Rattle.visited_set.specs.WaiterLists.{GoesOnBy, HasWaiter, IsOpen, noted};
ghost use Rattle.visited_set.specs.declared.waiters.Waiter.{Waiter as OneWaiter};

use known_names::is_calling;
use object_moves::MoveTable;
use std::alloc::{AllocError, Global};

/// An object that waits in a call in an entry, and whether it is known that some run goes on with it.
#[derive(Clone, Copy)]
pub struct Waiter {
    pub entry: u32,
    pub object: u32,
    pub goes_on: bool,
}

/// The waiters of some entries, in the order of the entries. `starts` has the index of the first waiter of each entry.
/// No proof depends on `starts`.
#[derive(Drop)]
pub struct Waiters {
    pub list: Vec<Waiter>,
    starts: Vec<usize>,
}

impl Waiters {
    /// No waiters of no entries.
    pub fn make(alloc: Global) -> Waiters
        ensures { result.list.items ≡ [] }
    {
        Waiters {
            list: Vec::new(alloc),
            starts: Vec::new(alloc),
        }
    }

    /// Adds the objects that wait in the next entry, of which these are the state numbers. `false` if no name of 32
    /// bits is left. An error means out of memory.
    pub fn add(
        &mut self,
        entry: u32,
        moves: &MoveTable<'_>,
        numbers: &[u32],
    ) -> Result<bool, AllocError>
        requires { AreWithin (known_states moves.now) numbers.now }
        ensures grown { OnOk result ((added : List OneWaiter) × (self.new.list.items ≡ self.old.list.items ++ added)) }
        ensures none_noted { OnOk result (Each IsOpen self.old.list.items → Each IsOpen self.new.list.items) }
        ensures all { result ≡ Ok true → (c : Configuration) → c.objects ≡ objects_from 0 (known_states moves.now) numbers.now
            → (o : ℕ) → WaitsAt (table_program moves.now) c o → HasWaiter false entry o self.new.list.items }
    {
        self.starts.push(self.list.len())?;
        for (i, number) in numbers.iter().enumerate() {
            let Some(thing) = moves.get(*number) else {
                unreachable!();
            };
            let Ok(object) = u32::try_from(i) else {
                return Ok(false);
            };
            if is_calling(moves.program(), object, thing) {
                self.list.push(Waiter {
                    entry,
                    object,
                    goes_on: false,
                })?;
            }
        }
        Ok(true)
    }

    /// The indexes of the waiters of this entry: the first, and the first after them. No proof depends on them.
    pub fn row(&self, entry: u32) -> (usize, usize) {
        let starts = self.starts.as_slice();
        let Some(from) = starts.get(entry as usize) else {
            return (0, 0);
        };
        match starts.get(entry as usize + 1) {
            Some(until) => (*from, *until),
            None => (*from, self.list.len()),
        }
    }

    /// Whether the object is a waiter of this entry for which `goes_on` is this.
    pub fn has(&self, goes_on: bool, entry: u32, object: u32) -> bool
        ensures { result ≡ true → HasWaiter goes_on entry object self.now.list.items }
    {
        let (from, until) = self.row(entry);
        for index in from..until {
            if self.is(index, goes_on, entry, object) {
                return true;
            }
        }
        false
    }

    /// The waiter at this index, if there is one.
    fn at(&self, index: usize) -> Option<Waiter>
        ensures { result ≡ slice_get self.now.list.items index }
    {
        match self.list.as_slice().get(index) {
            Some(waiter) => Some(*waiter),
            None => None,
        }
    }

    /// Whether the waiter at this index is the object in this entry, and `goes_on` is this.
    #[tactic(auto, using(crate::proofs::WaiterPlaces::has_found))]
    fn is(&self, index: usize, goes_on: bool, entry: u32, object: u32) -> bool
        ensures { result ≡ true → HasWaiter goes_on entry object self.now.list.items }
    {
        let Some(waiter) = self.at(index) else {
            return false;
        };
        if waiter.entry != entry {
            return false;
        }
        if waiter.object != object {
            return false;
        }
        if waiter.goes_on != goes_on {
            return false;
        }
        true
    }

    /// Whether it is not known of the waiter at this index that it can go on.
    fn is_open(&self, index: usize) -> bool {
        match self.at(index) {
            Some(waiter) => !waiter.goes_on,
            None => false,
        }
    }

    /// Whether it is not known of some waiter of this entry that it can go on. No proof depends on it.
    pub fn any_open(&self, entry: u32) -> bool {
        let (from, until) = self.row(entry);
        for index in from..until {
            if self.is_open(index) {
                return true;
            }
        }
        false
    }

    /// Whether the waiter at this index is one of entry `at` of which this is not known yet: it is one of the objects,
    /// or it can go on in entry `to`.
    pub fn goes_on_by(&self, index: usize, at: u32, to: u32, moved: &[u32]) -> bool
        ensures { result ≡ true → GoesOnBy index at to moved.now self.now.list.items }
    {
        let Some(waiter) = self.at(index) else {
            return false;
        };
        if waiter.entry != at {
            return false;
        }
        if waiter.goes_on {
            return false;
        }
        if moved.contains(&waiter.object) {
            return true;
        }
        self.has(true, to, waiter.object)
    }

    /// Notes that the waiter at this index can go on.
    pub fn note(&mut self, index: usize)
        requires { index < length self.old.list.items }
        ensures { IfSome (slice_get self.old.list.items index) (λ w. self.new.list.items ≡ slice_set self.old.list.items index (noted w)) }
    {
        self.list[index].goes_on = true;
    }

    /// Whether each waiter can go on.
    pub fn all_go_on(&self) -> bool
        ensures { result ≡ true → Each (λ w. w.goes_on ≡ true) self.now.list.items }
    {
        for waiter in self.list.as_slice() {
            if !waiter.goes_on {
                return false;
            }
        }
        true
    }

    /// Of the entries with the most waiters of which it is not known that they can go on, the first. None if there is
    /// no such waiter. No proof depends on it.
    pub fn fullest(&self) -> Option<u32> {
        let mut found = None;
        let mut most: u32 = 0;
        let mut entry = 0;
        let mut count: u32 = 0;
        for waiter in self.list.as_slice() {
            if waiter.entry != entry {
                entry = waiter.entry;
                count = 0;
            }
            if !waiter.goes_on {
                count = count.saturating_add(1);
            }
            if count > most {
                most = count;
                found = Some(entry);
            }
        }
        found
    }
}
