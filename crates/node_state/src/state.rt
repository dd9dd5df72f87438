//! The parts of a node, and the bits of its ready slots.
ghost use Rattle.std.specs.Prelude.{◌≡◌, ◌<◌, length};
ghost use Rattle.code_semantics.specs.Proper.{IsProper};
ghost use Rattle.code_semantics.specs.StepInstructions.{FitsUnit, IsAtStep};
ghost use Rattle.code_semantics.specs.Kinds.{code_kind};
ghost use Rattle.mesh_semantics.specs.Act.{can_step};
ghost use Rattle.node_semantics.specs.Node.{arrivals, can_go};
ghost use Rattle.mesh_of_code.specs.Coded.{coded, kind_of};
ghost use Rattle.slot_queues.specs.Mail.{box_of};
ghost use Rattle.node_heap.specs.Heaps.{object_at};
ghost use Rattle.node_state.specs.LongAnswers.{AreLongOf};
ghost use Rattle.node_state.specs.Views.{arrivals_of, refreshed, slot_at};

use crate::{LongAnswer, ReadySet};
use code_semantics::Unit;
use mailbox::Mailbox;
use node_heap::Heap;
use object_interp::can_step_alone;
use rendezvous_protocol::Outstanding;
use run_types::{Error, List};

/// The state of a node. `id` is its number. `cells` is the limit of the messages in its mailbox and the packets on the
/// links that leave it, together. For each slot, `faults` has the run-time error that its object has met, if any, and
/// `ready` says whether it can step. `goals` has the node to which the last request of the slot for a new object went.
/// For each class of the unit, `made` counts the objects that the node's objects have made. `long` has the long answers
/// of the unit. `last` is the slot that stepped last.
#[derive(Drop)]
pub struct NodeParts {
    pub id: u32,
    pub cells: u32,
    pub heap: Heap,
    pub mailbox: Mailbox,
    pub outstanding: Outstanding,
    pub faults: List<Option<Error>>,
    pub goals: List<u32>,
    pub ready: ReadySet,
    pub last: Option<u32>,
    pub made: List<u32>,
    pub long: List<LongAnswer>,
}

impl NodeParts {
    /// Reports whether the object of a slot can make a step with the messages that have arrived.
    fn can_step_now(&self, unit: &Unit, slot: u32) -> bool
        requires proper { IsProper unit.now }
        requires slot { slot < length self.now.heap.objects }
        requires boxes { slot < length self.now.mailbox.boxes }
        requires fits { FitsUnit unit.now (object_at self.now.heap slot) }
        requires rests { IsAtStep unit.now (object_at self.now.heap slot) }
        requires long { AreLongOf unit.now self.now.long }
        ensures { result ≡ can_step (arrivals (arrivals_of (box_of self.now.mailbox slot))) (kind_of (code_kind unit.now (object_at self.now.heap slot))) }
    {
        if can_step_alone(unit, &self.heap, slot) {
            return true;
        }
        self.first_possible(unit, slot).is_some()
    }

    /// Reports whether a slot is ready: it has no outstanding request, its object has met no error, and the object can
    /// make a step.
    fn can_go_now(&self, unit: &Unit, slot: u32) -> bool
        requires proper { IsProper unit.now }
        requires slot { slot < length self.now.heap.objects }
        requires boxes { slot < length self.now.mailbox.boxes }
        requires requests { slot < length self.now.outstanding }
        requires faults { slot < length self.now.faults }
        requires fits { FitsUnit unit.now (object_at self.now.heap slot) }
        requires rests { IsAtStep unit.now (object_at self.now.heap slot) }
        requires long { AreLongOf unit.now self.now.long }
        ensures { result ≡ can_go (coded unit.now) self.now.id (slot, slot_at self.now slot) }
    {
        if self.outstanding.number_of(slot).is_some() {
            return false;
        }
        if self.faults.items()[slot as usize].is_some() {
            return false;
        }
        self.can_step_now(unit, slot)
    }

    /// Updates the ready bit of a slot. Every change of a slot ends with it.
    pub fn refresh(&mut self, unit: &Unit, slot: u32)
        requires proper { IsProper unit.now }
        requires slot { slot < length self.old.heap.objects }
        requires boxes { slot < length self.old.mailbox.boxes }
        requires requests { slot < length self.old.outstanding }
        requires faults { slot < length self.old.faults }
        requires bits { slot < length self.old.ready }
        requires fits { FitsUnit unit.now (object_at self.old.heap slot) }
        requires rests { IsAtStep unit.now (object_at self.old.heap slot) }
        requires long { AreLongOf unit.now self.old.long }
        ensures { self.new ≡ refreshed unit.now self.old slot }
    {
        let bit = self.can_go_now(unit, slot);
        self.ready.set(slot, bit);
    }
}
