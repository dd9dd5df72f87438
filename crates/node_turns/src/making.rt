//! The step of an object that makes a new object.
ghost use Rattle.std.specs.Prelude.{◌≡◌, ◌≢◌, ℕ, ◌+◌, ◌-◌, ◌*◌, ◌^◌, ◌<◌, ◌≤◌, None, Some, length, get_or, slice_get, slice_set};
ghost use Rattle.run_types.specs.declared.types.Placement.{Placement as OnePlacement};
ghost use Rattle.run_types.specs.declared.types.NameId.{NameId as OneName};
ghost use Rattle.code_semantics.specs.Kinds as C;
ghost use Rattle.code_semantics.specs.Kinds.{code_kind};
ghost use Rattle.code_semantics.specs.Step.{class_from};
ghost use Rattle.node_heap.specs.Heaps.{object_at};
ghost use Rattle.node_semantics.specs.Node.{goal_for};
ghost use Rattle.node_state.specs.OfUnit.{IsOfUnit};
ghost use Rattle.node_state.specs.Views.{NodeInvariant, node_of};
ghost use Rattle.node_acts.specs.ActOf.{act_of};
ghost use Rattle.node_acts.specs.NodeSteps.{IsSet, IsTurned};

use code_semantics::Unit;
use node_acts::{NodePlan, StepOutput, TurnOutcome, name_of, no_cell, step};
use node_heap::HeapFull;
use node_state::NodeParts;
use rendezvous_protocol::Packet;
use run_types::{FullKind, Label, Place, Placement, Value, What};

/// The node of the next new object of this class.
fn goal_of(placement: &Placement, parts: &NodeParts, class: u32) -> u32
    requires places { class < length placement.now.places }
    requires made { class < length parts.now.made }
    requires size { (placement.now.width ≤ 8) × (placement.now.height ≤ 8) × (0 < placement.now.width * placement.now.height) }
    ensures { result ≡ goal_for placement.now parts.now.id (get_or parts.now.made class 0) (slice_get placement.now.places class) }
{
    let made = parts.made.items()[class as usize];
    match placement.places.items()[class as usize] {
        Place::At(node) => node,
        Place::Same => parts.id,
        Place::Spread => {
            let nodes = placement.width * placement.height;
            ((parts.id as u64 + made as u64) % nodes as u64) as u32
        }
    }
}

/// Counts one more object of this class.
fn count_in(parts: &mut NodeParts, class: u32)
    requires class { class < length parts.old.made }
    requires few { get_or parts.old.made class 0 < 2 ^ 32 - 1 }
    ensures { parts.new ≡ record parts.old { made = slice_set parts.old.made class (get_or parts.old.made class 0 + 1) } }
{
    let made = parts.made.items()[class as usize];
    parts.made.set(class as usize, made + 1);
}

/// Makes an object on this node, and gives its maker the name. Reports the limit, and changes nothing, if there is no
/// slot or no frame for it.
fn create_here(
    unit: &Unit,
    parts: &mut NodeParts,
    slot: u32,
    class: u32,
    room: &mut StepOutput,
) -> TurnOutcome
    requires whole { NodeInvariant parts.old }
    requires unit { IsOfUnit unit.now (node_of parts.old) }
    requires slot { slot < length parts.old.heap.objects }
    requires free { get_or parts.old.outstanding slot None ≡ None }
    requires kind { (k : OneName) × (code_kind unit.now (object_at parts.old.heap slot) ≡ C.New k) × (class_from 0 unit.now.classes k ≡ Some class) }
    requires class { class < length unit.now.classes }
    requires few { get_or parts.old.made class 0 < 2 ^ 32 - 1 }
    ensures { (l : OnePlacement) (q leaving : ℕ) → IsSet unit.now l leaving parts.old → goal_for l parts.old.id (get_or parts.old.made class 0) (slice_get l.places class) ≡ parts.old.id
        → IsTurned unit.now l q leaving (act_of result room.new) parts.old parts.new slot }
{
    let object = name_of(parts, slot);
    match parts.add(unit, class) {
        Ok(new) => {
            let name = name_of(parts, new);
            parts.give(unit, slot, Value::Ref(name));
            count_in(parts, class);
            let label = Label::New {
                object,
                name,
                class: unit.classes.items()[class as usize].name,
            };
            room.what = step(label);
            TurnOutcome::Line
        }
        Err(HeapFull::Objects) => TurnOutcome::Full {
            kind: FullKind::Heap,
        },
        Err(HeapFull::Frames) => TurnOutcome::Full {
            kind: FullKind::Frames,
        },
    }
}

/// Posts a request for a new object to another node, unless its packet lacks a cell.
fn create_there(
    plan: &NodePlan<'_>,
    parts: &mut NodeParts,
    slot: u32,
    class: u32,
    goal: u32,
    room: &mut StepOutput,
) -> TurnOutcome
    requires set { IsSet plan.now.unit.now plan.now.placement.now plan.now.leaving parts.old }
    requires slot { slot < length parts.old.heap.objects }
    requires free { get_or parts.old.outstanding slot None ≡ None }
    requires kind { (k : OneName) × (code_kind plan.now.unit.now (object_at parts.old.heap slot) ≡ C.New k) × (class_from 0 plan.now.unit.now.classes k ≡ Some class) }
    requires class { class < length plan.now.unit.now.classes }
    requires few { get_or parts.old.made class 0 < 2 ^ 32 - 1 }
    requires goal { goal_for plan.now.placement.now parts.old.id (get_or parts.old.made class 0) (slice_get plan.now.placement.now.places class) ≡ goal }
    requires other { goal ≢ parts.old.id }
    ensures { (q : ℕ) → IsTurned plan.now.unit.now plan.now.placement.now q plan.now.leaving (act_of result room.new) parts.old parts.new slot }
{
    if no_cell(plan, parts) {
        return TurnOutcome::Full {
            kind: FullKind::Cells,
        };
    }
    let object = name_of(parts, slot);
    let number = parts.ask(plan.unit, slot, goal);
    count_in(parts, class);
    let name = plan.unit.classes.items()[class as usize].name;
    room.packet = Packet::Create {
        number,
        from: object,
        node: goal,
        class: name,
    };
    room.what = What::PostCreate {
        object,
        class: name,
        node: goal,
    };
    TurnOutcome::Leaves
}

/// Makes a new object of this class on this node, or posts a request for it to another node.
pub fn create_turn(
    plan: &NodePlan<'_>,
    parts: &mut NodeParts,
    slot: u32,
    class: u32,
    room: &mut StepOutput,
) -> TurnOutcome
    requires set { IsSet plan.now.unit.now plan.now.placement.now plan.now.leaving parts.old }
    requires slot { slot < length parts.old.heap.objects }
    requires free { get_or parts.old.outstanding slot None ≡ None }
    requires kind { (k : OneName) × (code_kind plan.now.unit.now (object_at parts.old.heap slot) ≡ C.New k) × (class_from 0 plan.now.unit.now.classes k ≡ Some class) }
    requires class { class < length plan.now.unit.now.classes }
    requires few { get_or parts.old.made class 0 < 2 ^ 32 - 1 }
    ensures { (q : ℕ) → IsTurned plan.now.unit.now plan.now.placement.now q plan.now.leaving (act_of result room.new) parts.old parts.new slot }
{
    let goal = goal_of(plan.placement, parts, class);
    if goal == parts.id {
        create_here(plan.unit, parts, slot, class, room)
    } else {
        create_there(plan, parts, slot, class, goal, room)
    }
}
