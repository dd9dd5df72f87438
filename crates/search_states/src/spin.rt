//! Objects that spin: local transitions of the object alone lead back to a state that it had.
use crate::copies::copy;
use crate::hashes::state_hash;
use crate::states::same;
use std::alloc::{AllocError, Global};
use stepper_objects::object_state::ObjectState;

/// The first number of transitions after which a state is kept. Objects that make fewer cost nothing.
const FIRST: u32 = 16;

/// The largest number of active methods of a state that is kept, so that a state is compared in a bounded time.
const DEEPEST: usize = 100;

/// Watches the local transitions of one object. It keeps the state after each power of two of them, from 16 on, if it has
/// at most 100 active methods. If a later state is the same, the object spins. Then it goes round once more, and stops at
/// the state of the circle with the least hash: so it stops at the same state wherever it entered the circle. No proof
/// depends on it, since a search may stop following transitions anywhere.
#[derive(Drop)]
pub struct SpinWatch<'a> {
    alloc: Global,
    /// The number of transitions.
    made: u32,
    /// The state after `kept_at` of them.
    kept: Option<ObjectState<'a>>,
    kept_at: u32,
    spins: bool,
    /// The number of transitions that are left of the round, and the least hash of the states so far.
    left: u32,
    least: u64,
}

impl<'a> SpinWatch<'a> {
    /// A watch of an object before its first transition.
    pub fn make(alloc: Global) -> SpinWatch<'a> {
        SpinWatch {
            alloc,
            made: 0,
            kept: None,
            kept_at: 0,
            spins: false,
            left: 0,
            least: 0,
        }
    }

    /// Whether the object has this state in common with the kept one.
    fn is_kept(&self, thing: &ObjectState<'a>) -> bool {
        match &self.kept {
            Some(kept) => same(kept, thing),
            None => false,
        }
    }

    /// Notes one more transition, which led to this state. `true` if the object spins and is to stop here. An error
    /// means out of memory.
    pub fn stops(&mut self, thing: &ObjectState<'a>) -> Result<bool, AllocError> {
        self.made = self.made.saturating_add(1);
        if self.spins {
            let hash = state_hash(thing);
            self.least = self.least.min(hash);
            self.left = self.left.saturating_sub(1);
            return Ok(self.left == 0 && hash == self.least);
        }
        if self.is_kept(thing) {
            self.spins = true;
            self.left = self.made.saturating_sub(self.kept_at);
            self.least = state_hash(thing);
        } else if self.made >= FIRST
            && self.made.is_power_of_two()
            && thing.work.calls.len() <= DEEPEST
        {
            self.kept = Some(copy(self.alloc, thing)?);
            self.kept_at = self.made;
        }
        Ok(false)
    }
}
