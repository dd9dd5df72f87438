//! A table that gives numbers to object states, so that a search stores each state once.
ghost use Rattle.std.specs.Prelude.{◌≡◌, ◌-◌, ◌^◌, ◌≤◌, [], Ok, None, Some, IfOk, IfSome, option_map, length, slice_get, take, true};
ghost use Rattle.stepper_objects.specs.ObjectStates.{thing_object};
ghost use Rattle.search_states.specs.States.{states};

use crate::copies::copy;
use crate::hashes::state_hash;
use crate::states::same;
use std::alloc::{AllocError, Global};
use std::collections::HashMap;
use stepper_objects::object_state::ObjectState;

/// Adds a number to those of states with this hash. No proof depends on it.
fn add_number(
    alloc: Global,
    numbers: &mut HashMap<u64, Vec<u32>>,
    state_hash: u64,
    number: u32,
) -> Result<(), AllocError> {
    numbers
        .entry(state_hash)?
        .or_insert(Vec::new(alloc))
        .push(number)?;
    Ok(())
}

/// A table of fewer than 2^32 object states, numbered from 0. Contracts see it as the list of its objects.
/// It finds a state by its hash.
#[derive(Drop)]
pub struct StateTable<'a> {
    alloc: Global,
    things: Vec<ObjectState<'a>>,
    numbers: HashMap<u64, Vec<u32>>,
}

impl<'a> StateTable<'a> {
    /// An empty table.
    pub fn make(alloc: Global) -> StateTable<'a>
        ensures { states result ≡ [] }
    {
        StateTable {
            alloc,
            things: Vec::new(alloc),
            numbers: HashMap::new(alloc),
        }
    }

    /// The object with this number. None if the table has no such number.
    pub fn get(&self, number: u32) -> Option<&ObjectState<'a>>
        ensures { option_map (λ t. thing_object t.now) result ≡ slice_get (states self.now) number }
    {
        self.things.as_slice().get(number as usize)
    }

    /// Whether the object with this number is in the same state as `thing`.
    fn is_at(&self, number: u32, thing: &ObjectState<'_>) -> bool
        ensures { result ≡ true → slice_get (states self.now) number ≡ Some (thing_object thing.now) }
    {
        match self.get(number) {
            Some(other) => same(other, thing),
            None => false,
        }
    }

    /// The number of a state, if the table has it.
    fn found(&self, state_hash: u64, thing: &ObjectState<'_>) -> Option<u32>
        ensures { IfSome result (λ n. slice_get (states self.now) n ≡ Some (thing_object thing.now)) }
    {
        for number in self.numbers.get(&state_hash)? {
            if self.is_at(*number, thing) {
                return Some(*number);
            }
        }
        None
    }

    /// Adds a state and returns its number. None if the table has 2^32 - 1 states. An error means out of memory.
    fn add(&mut self, state_hash: u64, thing: &ObjectState<'a>) -> Result<Option<u32>, AllocError>
        ensures found { IfOk result (λ o. IfSome o (λ n. slice_get (states self.new) n ≡ Some (thing_object thing.now))) }
        ensures grows { take (length (states self.old)) (states self.new) ≡ states self.old }
        ensures full { result ≡ Ok None → 2 ^ 32 - 1 ≤ length (states self.old) }
    {
        let count = self.things.len();
        if count >= u32::MAX as usize {
            return Ok(None);
        }
        let number = count as u32;
        let Ok(copied) = copy(self.alloc, thing) else {
            return Err(AllocError);
        };
        self.things.push(copied)?;
        add_number(self.alloc, &mut self.numbers, state_hash, number)?;
        Ok(Some(number))
    }

    /// The number of an object's state. Adds the state if it is not in the table.
    /// None if it is new and the table has 2^32 - 1 states. An error means out of memory.
    pub fn number_of(&mut self, thing: &ObjectState<'a>) -> Result<Option<u32>, AllocError>
        ensures found { IfOk result (λ o. IfSome o (λ n. slice_get (states self.new) n ≡ Some (thing_object thing.now))) }
        ensures grows { take (length (states self.old)) (states self.new) ≡ states self.old }
        ensures full { result ≡ Ok None → 2 ^ 32 - 1 ≤ length (states self.old) }
    {
        let state_hash = state_hash(thing);
        match self.found(state_hash, thing) {
            Some(number) => Ok(Some(number)),
            None => self.add(state_hash, thing),
        }
    }
}
