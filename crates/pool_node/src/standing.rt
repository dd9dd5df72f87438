//! The status of the objects of a node.
ghost use Rattle.std.specs.Prelude.{◌≡◌, ◌<◌, length, is_some, Option as option, true, false};
ghost use Rattle.run_types.specs.declared.types.Error.{Error as OneError};
ghost use Rattle.std.specs.List.{list_any};
ghost use Rattle.mesh_of_code.specs.Coded.{Placed, coded, kind_of};
ghost use Rattle.node_semantics.specs.Node.{Slot, arrivals, name_at};
ghost use Rattle.node_semantics.specs.Standings.{slot_standing};
ghost use Rattle.pool_node.specs.Standings.{chosen_standing, told_standing};
ghost use Rattle.code_semantics.specs.Kinds.{code_kind};
ghost use Rattle.object_interp.specs.Offers.{IsChoosing};
ghost use Rattle.node_heap.specs.Heaps.{object_at};
ghost use Rattle.slot_queues.specs.Mail.{box_of};
ghost use Rattle.mesh_semantics.specs.Act.{can_step};
ghost use Rattle.node_state.specs.OfUnit.{IsOfUnit};
ghost use Rattle.node_state.specs.Views.{NodeInvariant, arrivals_of, node_of, slot_at, slots_of};

use code_semantics::Unit;
use node_state::NodeParts;
use object_interp::{Hand, Need, at_hand};
use run_types::{Error, Standing};

/// The status of an object with an outstanding request.
fn asking(unit: &Unit, parts: &NodeParts, slot: u32) -> Standing
    requires whole { NodeInvariant parts.now }
    requires unit { IsOfUnit unit.now (node_of parts.now) }
    requires slot { slot < length parts.now.heap.objects }
    requires out { is_some (slot_at parts.now slot).request ≡ true }
    ensures { told_standing result ≡ slot_standing (coded unit.now) (name_at parts.now.id slot) (slot_at parts.now slot) }
{
    match at_hand(unit, &parts.heap, slot) {
        Hand::At(Need::Send { to, method, .. }) => Standing::Calls { to, method },
        Hand::At(Need::New { class }) => Standing::Creates {
            class: unit.classes.items()[class as usize].name,
            node: parts.goals.items()[slot as usize],
        },
        _ => Standing::Awaits,
    }
}

/// The status of the object of a slot.
pub(crate) fn standing_of(unit: &Unit, parts: &NodeParts, slot: u32) -> Standing
    requires whole { NodeInvariant parts.now }
    requires unit { IsOfUnit unit.now (node_of parts.now) }
    requires slot { slot < length parts.now.heap.objects }
    ensures { told_standing result ≡ slot_standing (coded unit.now) (name_at parts.now.id slot) (slot_at parts.now slot) }
{
    if parts.outstanding.number_of(slot).is_some() {
        return asking(unit, parts, slot);
    }
    if let Some(error) = parts.faults.items()[slot as usize] {
        return Standing::Faulted { error };
    }
    free_standing(unit, parts, slot)
}

/// The status of an object without an outstanding request and without a run-time error.
fn free_standing(unit: &Unit, parts: &NodeParts, slot: u32) -> Standing
    requires whole { NodeInvariant parts.now }
    requires unit { IsOfUnit unit.now (node_of parts.now) }
    requires slot { slot < length parts.now.heap.objects }
    requires free { is_some (slot_at parts.now slot).request ≡ false }
    requires fault { is_some (slot_at parts.now slot).state.fault ≡ false }
    ensures { told_standing result ≡ slot_standing (coded unit.now) (name_at parts.now.id slot) (slot_at parts.now slot) }
{
    match at_hand(unit, &parts.heap, slot) {
        Hand::At(Need::Halted) => Standing::Finished,
        Hand::At(Need::Answer) => choosing(unit, parts, slot),
        Hand::At(Need::Select) => choosing(unit, parts, slot),
        _ => Standing::Ready,
    }
}

/// The status of an object that answers or selects: ready if an alternative is possible.
fn choosing(unit: &Unit, parts: &NodeParts, slot: u32) -> Standing
    requires whole { NodeInvariant parts.now }
    requires unit { IsOfUnit unit.now (node_of parts.now) }
    requires slot { slot < length parts.now.heap.objects }
    requires choosing { IsChoosing (code_kind unit.now (object_at parts.now.heap slot)) }
    ensures { told_standing result ≡ chosen_standing (can_step (arrivals (arrivals_of (box_of parts.now.mailbox slot))) (kind_of (code_kind unit.now (object_at parts.now.heap slot)))) }
{
    if parts.first_possible(unit, slot).is_some() {
        Standing::Ready
    } else {
        Standing::Awaits
    }
}

/// Reports whether the list has an error.
fn any_some(faults: &[Option<Error>]) -> bool
    ensures { result ≡ list_any (λ (f : option OneError). is_some f) faults.now }
{
    faults.iter().any(|fault| fault.is_some())
}

/// Reports whether an object of the node has met a run-time error.
pub(crate) fn any_fault(parts: &NodeParts) -> bool
    requires whole { NodeInvariant parts.now }
    ensures { result ≡ list_any (λ (s : Slot Placed). is_some s.state.fault) (slots_of parts.now) }
{
    any_some(parts.faults.items())
}
