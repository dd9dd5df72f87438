//! The numbers of rows, found by the hashes of the rows. No proof depends on it.
use std::alloc::{AllocError, Global};

/// A slot without a row.
const FREE: u32 = u32::MAX;

/// A table with open addressing, of which at most half is used. A slot takes 4 bytes. A row with the number 2^32 - 1 is
/// not found.
#[derive(Drop)]
pub struct Index {
    slots: Vec<u32>,
    used: usize,
}

/// The slot at this distance from the first one of a hash, where there are so many slots: a power of two.
fn slot_of(mark: u64, distance: usize, slots: usize) -> usize {
    (mark as usize).wrapping_add(distance) & slots.wrapping_sub(1)
}

impl Index {
    /// No rows.
    pub fn make(alloc: Global) -> Index {
        Index {
            slots: Vec::new(alloc),
            used: 0,
        }
    }

    /// No rows, with twice as many slots as this one. An error means out of memory.
    pub fn wider(&self, alloc: Global) -> Result<Index, AllocError> {
        let count = self.slots.len().saturating_mul(2).max(16);
        Ok(Index {
            slots: Vec::from_elem(alloc, FREE, count)?,
            used: 0,
        })
    }

    /// Becomes the other index, if there is one.
    pub fn widen(&mut self, wider: Option<Index>) {
        if let Some(wider) = wider {
            *self = wider;
        }
    }

    /// Whether half of the slots are used.
    pub fn is_full(&self) -> bool {
        self.slots.len() / 2 <= self.used
    }

    /// The number of slots.
    pub fn len(&self) -> usize {
        self.slots.len()
    }

    /// The row in the slot at this distance from the first one of a hash. None if the slot is free.
    pub fn get(&self, mark: u64, distance: usize) -> Option<u32> {
        let slot = slot_of(mark, distance, self.slots.len());
        match self.slots.as_slice().get(slot) {
            Some(row) if *row != FREE => Some(*row),
            _ => None,
        }
    }

    /// Adds a row with this hash, if its number has 32 bits and a slot is free.
    pub fn insert(&mut self, mark: u64, row: usize) {
        let Ok(row) = u32::try_from(row) else {
            return;
        };
        let count = self.slots.len();
        for distance in 0..count {
            let slot = slot_of(mark, distance, count);
            if let Some(found) = self.slots.as_mut_slice().get_mut(slot) {
                if *found == FREE {
                    *found = row;
                    self.used = self.used.saturating_add(1);
                    return;
                }
            }
        }
    }
}
