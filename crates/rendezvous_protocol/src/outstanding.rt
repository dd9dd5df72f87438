//! The numbers of outstanding requests.
ghost use Rattle.std.specs.Prelude.{◌≡◌, ◌≢◌, ◌<◌, ℕ, length, Some, None, true, IfOk, slice_get, slice_set, get_or, replicate};
ghost use Rattle.std.specs.List.{list_any};
ghost use Rattle.rendezvous_protocol.specs.Numbers.{is_number};

use slab::Slab;
use std::alloc::{AllocError, Global};
use std::marker::Model;

/// The number of the outstanding request of each slot, if it has one. No two slots have the same number. Only `make`
/// allocates.
#[derive(Drop)]
pub struct Outstanding {
    // The slot of each outstanding number.
    slots: Slab<u32>,
    // The outstanding number of each slot.
    numbers: Vec<Option<u32>>,
}

impl Model for Outstanding {
    ghost use Rattle.std.specs.Prelude.{ℕ, List, Option};

    ghost Value = { List (Option ℕ) };

    ghost use Rattle.rendezvous_protocol.specs.Outstanding.{AreOut};

    ghost view = { λ o. o.numbers.items };

    ghost invariant = { λ o. AreOut o.slots o.numbers.items };
}

impl Outstanding {
    /// Makes a table for slots below `objects`, with no number outstanding. Returns `Err` if memory runs out, or if the
    /// allocated room is for 2^32 numbers or more.
    pub fn make(alloc: Global, objects: u32) -> Result<Outstanding, AllocError>
        ensures { IfOk result (λ o. o ≡ replicate objects None) }
    {
        let slots = Slab::with_capacity(alloc, objects as usize)?;
        if slots.capacity() >= 4_294_967_296 {
            return Err(AllocError);
        }
        let numbers = vec![in alloc; None; objects as usize]?;
        Ok(Outstanding { slots, numbers })
    }

    /// Issues a number for a slot that has none. No other slot has that number. A settled number may be issued again.
    pub fn issue(&mut self, slot: u32) -> u32
        requires slot { slot < length self.old }
        requires none { slice_get self.old slot ≡ Some None }
        ensures unused { (k : ℕ) → slice_get self.old k ≢ Some (Some result) }
        ensures added { self.new ≡ slice_set self.old slot (Some result) }
    {
        let number = self.slots.insert_reserved(slot) as u32;
        self.numbers[slot as usize] = Some(number);
        number
    }

    /// Settles an outstanding number, and returns the slot that had it.
    pub fn settle(&mut self, number: u32) -> u32
        requires { list_any (is_number number) self.old ≡ true }
        ensures slot { slice_get self.old result ≡ Some (Some number) }
        ensures only { (k : ℕ) → slice_get self.old k ≡ Some (Some number) → k ≡ result }
        ensures removed { self.new ≡ slice_set self.old result None }
    {
        match self.slots.try_remove(number as usize) {
            Some(slot) => {
                self.numbers[slot as usize] = None;
                slot
            }
            None => unreachable!(),
        }
    }

    /// Reports whether the number is outstanding.
    pub fn is_out(&self, number: u32) -> bool
        ensures { result ≡ list_any (is_number number) self.now }
    {
        self.slots.get(number as usize).is_some()
    }

    /// The outstanding number of a slot, if it has one.
    pub fn number_of(&self, slot: u32) -> Option<u32>
        requires { slot < length self.now }
        ensures { result ≡ get_or self.now slot None }
    {
        self.numbers[slot as usize]
    }
}
