//! What is noted of objects in states, to find soon that an object is known to others. No proof depends on it.
use crate::numbered::Numbered;
use known_names::{OtherNames, awaits};
use object_moves::MoveTable;
use std::alloc::{AllocError, Global};
use std::collections::HashMap;
use stepper_objects::object_state::ObjectState;

/// Of an object in a state: which of the names below 64 it knows, as bits, and those of them that it awaits.
#[derive(Clone, Copy)]
struct Hint {
    knows: u64,
    awaits: u64,
}

/// The hints of objects in states, by the name of the object and the number of the state.
#[derive(Drop)]
pub struct Hints {
    noted: HashMap<u64, Hint>,
}

/// The hint of an object in this state, for the names below `count`, at most 64.
fn hint_of<'a>(moves: &MoveTable<'a>, name: u32, thing: &ObjectState<'a>, count: u32) -> Hint {
    let mut knows = 0;
    let mut waits = 0;
    let mut bit: u64 = 1;
    for other in 0..count.min(64) {
        let others = OtherNames {
            next: u32::MAX,
            name: other,
        };
        if !others.has_object(thing) {
            knows |= bit;
        }
        if awaits(moves.program(), other, name, thing) {
            waits |= bit;
        }
        bit = bit.rotate_left(1);
    }
    Hint {
        knows,
        awaits: waits,
    }
}

/// Whether the bit of this name is set. Names of 64 and more have none.
pub fn has_bit(bits: u64, name: u32) -> bool {
    name < 64 && bits.rotate_right(name) & 1 == 1
}

impl Hints {
    /// No hints.
    pub fn make(alloc: Global) -> Hints {
        Hints {
            noted: HashMap::new(alloc),
        }
    }

    /// The hint of this object in the state with this number, which names only objects below `count`. None if there is
    /// no such state. An error means out of memory.
    fn of(
        &mut self,
        moves: &MoveTable<'_>,
        name: u32,
        number: u32,
        count: u32,
    ) -> Result<Option<Hint>, AllocError> {
        let key = u64::from(name) << 32 | u64::from(number);
        if let Some(hint) = self.noted.get(&key) {
            return Ok(Some(*hint));
        }
        let Some(thing) = moves.get(number) else {
            return Ok(None);
        };
        let hint = hint_of(moves, name, thing, count);
        self.noted.insert(key, hint)?;
        Ok(Some(hint))
    }

    /// The names below 64, as bits, that some object knows which neither has the name nor awaits it. An error means out
    /// of memory.
    pub fn known(
        &mut self,
        moves: &MoveTable<'_>,
        entry: &Numbered<'_>,
    ) -> Result<u64, AllocError> {
        let mut known = 0;
        let mut own: u64 = 1;
        for (i, number) in entry.objects.iter().enumerate() {
            let Ok(name) = u32::try_from(i) else {
                return Ok(known);
            };
            if let Some(hint) = self.of(moves, name, *number, entry.next)? {
                let itself = if i < 64 { own } else { 0 };
                known |= hint.knows & !hint.awaits & !itself;
            }
            own = own.rotate_left(1);
        }
        Ok(known)
    }
}
