//! Numbered configurations, one after another.
ghost use Rattle.std.specs.Prelude.{◌≡◌, ◌<◌, [], ◌∷◌, ◌++◌, length, slice_get, true, Some, IfSome, OnOk, OnErr};
ghost use Rattle.visited_set.specs.Rows.{row_of, stored_row};

use crate::equality::{mark, same_row};
use crate::index::Index;
use crate::numbered::{Numbered, Queue, Stored};
use flat_lists::{FlatLists, pack, unpack};
use std::alloc::{AllocError, Global};
use std::marker::Model;

/// The next free name of a configuration, and the number of what was written before it.
#[derive(Clone, Copy)]
pub struct Head {
    next: u32,
    written: u32,
}

/// Configurations, numbered from 0. Contracts see the list of their rows. One takes 16 bytes, 2 for each object in a
/// state below 65,535 and 6 in another one, 12 for each queue, and 8 to 16 in the index.
#[derive(Drop)]
pub struct Rows {
    alloc: Global,
    heads: Vec<Head>,
    objects: FlatLists<u16>,
    queues: FlatLists<Queue>,
    index: Index,
}

impl Model for Rows {
    ghost use Rattle.std.specs.Prelude.{List, length, ◌≤◌};
    ghost use Rattle.visited_set.specs.Rows.{Row, rows_of};

    ghost Value = { List Row };

    ghost view = { λ r. rows_of r.heads.items r.objects r.queues };

    ghost invariant = { λ r. (length r.heads.items ≤ length r.objects) × (length r.heads.items ≤ length r.queues) };
}

impl Rows {
    /// No configurations.
    pub fn make(alloc: Global) -> Rows
        ensures { result ≡ [] }
    {
        Rows {
            alloc,
            heads: Vec::new(alloc),
            objects: FlatLists::make(alloc),
            queues: FlatLists::make(alloc),
            index: Index::make(alloc),
        }
    }

    /// The number of configurations.
    pub fn len(&self) -> usize
        ensures { result ≡ length self.now }
    {
        self.heads.len()
    }

    /// The configuration with this number.
    pub fn get(&self, at: usize) -> Stored<'_>
        requires { at < length self.now }
        ensures { slice_get self.now at ≡ Some (stored_row result) }
    {
        let head = self.heads[at];
        Stored {
            next: head.next,
            written: head.written,
            objects: self.objects.get(at),
            queues: self.queues.get(at),
        }
    }

    /// The number of this configuration, which has this hash. None if it is not found.
    pub fn find(&self, mark: u64, row: &Numbered<'_>) -> Option<u32>
        ensures { IfSome result (λ i. slice_get self.now i ≡ Some (row_of row.now)) }
    {
        for distance in 0..self.index.len() {
            let at = self.index.get(mark, distance)?;
            if self.is_at(at, row) {
                return Some(at);
            }
        }
        None
    }

    /// Whether the configuration with this number is this one.
    fn is_at(&self, at: u32, row: &Numbered<'_>) -> bool
        ensures { result ≡ true → slice_get self.now at ≡ Some (row_of row.now) }
    {
        (at as usize) < self.len() && same_row(&self.get(at as usize), row)
    }

    /// An index of all configurations with twice as many slots, if half of them are used. An error means out of memory.
    fn wider_index(&self) -> Result<Option<Index>, AllocError> {
        if !self.index.is_full() {
            return Ok(None);
        }
        let mut wider = self.index.wider(self.alloc)?;
        for at in 0..self.len() {
            let entry = self.get(at);
            let numbers = unpack(self.alloc, entry.objects)?;
            wider.insert(mark(&entry.with(numbers.as_slice())), at);
        }
        Ok(Some(wider))
    }

    /// Adds a configuration with this hash at the end. An error means out of memory, or that there would be 2^32 units
    /// of 16 bits or 2^32 queues in all.
    pub fn push(&mut self, mark: u64, row: &Numbered<'_>) -> Result<(), AllocError>
        ensures ok { OnOk result (self.new ≡ self.old ++ row_of row.now ∷ []) }
        ensures err { OnErr result (self.new ≡ self.old) }
    {
        let wider = self.wider_index()?;
        let units = pack(self.alloc, row.objects)?;
        let count = self.heads.len();
        self.objects.truncate(count);
        self.queues.truncate(count);
        self.objects.push(units.as_slice())?;
        self.queues.push(row.queues)?;
        self.heads.push(Head {
            next: row.next,
            written: row.written,
        })?;
        self.index.widen(wider);
        self.index.insert(mark, count);
        Ok(())
    }
}
