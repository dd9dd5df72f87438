//! The possible alternatives of an object: those that it can choose with the messages that have arrived.
ghost use Rattle.std.specs.Prelude.{◌≡◌, ◌<◌, length};
ghost use Rattle.code_semantics.specs.Proper.{IsProper};
ghost use Rattle.code_semantics.specs.StepInstructions.{FitsUnit, IsAtStep};
ghost use Rattle.slot_queues.specs.Mail.{box_of};
ghost use Rattle.node_heap.specs.Heaps.{object_at};
ghost use Rattle.object_interp.specs.Offers.{offer_at, offers_at};
ghost use Rattle.node_state.specs.Choices.{first_of_these, may_go};
ghost use Rattle.node_state.specs.LongAnswers.{AreLongOf};

use crate::long::names_of;
use crate::state::NodeParts;
use code_semantics::Unit;
use object_interp::{alts, plain_alt};

impl NodeParts {
    /// Reports whether alternative `alt` of a slot, counted from 1, is open, and is plain or answers a message in the
    /// mailbox.
    fn is_possible(&self, unit: &Unit, slot: u32, alt: u32) -> bool
        requires proper { IsProper unit.now }
        requires slot { slot < length self.now.heap.objects }
        requires room { slot < length self.now.mailbox.boxes }
        requires fits { FitsUnit unit.now (object_at self.now.heap slot) }
        requires rests { IsAtStep unit.now (object_at self.now.heap slot) }
        requires long { AreLongOf unit.now self.now.long }
        ensures { result ≡ may_go (box_of self.now.mailbox slot) (offer_at (offers_at unit.now (object_at self.now.heap slot)) alt) }
    {
        if plain_alt(unit, &self.heap, slot, alt) {
            return true;
        }
        match names_of(unit, &self.heap, &self.long, slot, alt) {
            Some(names) => self.mailbox.has_first(slot, names),
            None => false,
        }
    }

    /// The number of the first possible alternative of a slot, counted from 1. None if there is none.
    pub fn first_possible(&self, unit: &Unit, slot: u32) -> Option<u32>
        requires proper { IsProper unit.now }
        requires slot { slot < length self.now.heap.objects }
        requires room { slot < length self.now.mailbox.boxes }
        requires fits { FitsUnit unit.now (object_at self.now.heap slot) }
        requires rests { IsAtStep unit.now (object_at self.now.heap slot) }
        requires long { AreLongOf unit.now self.now.long }
        ensures { result ≡ first_of_these (box_of self.now.mailbox slot) 1 (offers_at unit.now (object_at self.now.heap slot)) }
    {
        let count = alts(unit, &self.heap, slot);
        for place in 0..count {
            if self.is_possible(unit, slot, place + 1) {
                return Some(place + 1);
            }
        }
        None
    }
}
