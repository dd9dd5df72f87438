//! A turn of a node.
ghost use Rattle.std.specs.Prelude.{◌≡◌, ℕ, ◌+◌, ◌-◌, ◌^◌, ◌<◌, ◌≤◌, true, None, Some, length, get_or, take};
ghost use Rattle.code_semantics.specs.Kinds.{code_kind};
ghost use Rattle.node_heap.specs.Heaps.{object_at};
ghost use Rattle.run_types.specs.Tables.{Each};
ghost use Rattle.mesh_semantics.specs.Act.{can_step};
ghost use Rattle.mesh_of_code.specs.Coded.{coded, kind_of};
ghost use Rattle.slot_queues.specs.Mail.{box_of};
ghost use Rattle.object_interp.specs.declared.types.Hand.TheVariants as H;
ghost use Rattle.object_interp.specs.Offers.{hand_of};
ghost use Rattle.node_semantics.specs.Node.{arrivals, message_count, turn_act};
ghost use Rattle.node_semantics.specs.Agrees.{IsUnused};
ghost use Rattle.node_state.specs.OfUnit.{IsOfPlacement, IsOfUnit};
ghost use Rattle.node_state.specs.Views.{NodeInvariant, arrivals_of, node_of, slots_of};
ghost use Rattle.node_acts.specs.ActOf.{act_of};
ghost use Rattle.node_acts.specs.declared.types.StepOutput.{StepOutput as OneRoom};
ghost use Rattle.node_turns.specs.Acts.{IsActOf};
ghost use Rattle.node_acts.specs.NodeSteps.{IsSet, IsTurned, kept};
ghost use Rattle.node_state.specs.Bits.{first_bit_from};
ghost use Rattle.node_turns.specs.Bits.{bit_in_turn};

use crate::making::create_turn;
use code_semantics::Unit;
use node_acts::{
    NodePlan, Returning, Sending, StepOutput, TurnOutcome, async_turn, call_turn, choose_turn,
    fault_turn, name_of, return_turn, write_turn,
};
use node_state::NodeParts;
use object_interp::{Burst, Need, burst};
use run_types::{FullKind, Label, Placement, What};

/// Makes the step of an object with this request.
fn need_turn(
    plan: &NodePlan<'_>,
    parts: &mut NodeParts,
    slot: u32,
    need: Need,
    room: &mut StepOutput,
) -> TurnOutcome
    requires set { IsSet plan.now.unit.now plan.now.placement.now plan.now.leaving parts.old }
    requires slot { slot < length parts.old.heap.objects }
    requires free { get_or parts.old.outstanding slot None ≡ None }
    requires steps { can_step (arrivals (arrivals_of (box_of parts.old.mailbox slot))) (kind_of (code_kind plan.now.unit.now (object_at parts.old.heap slot))) ≡ true }
    requires hand { H.At need ≡ hand_of plan.now.unit.now (code_kind plan.now.unit.now (object_at parts.old.heap slot)) }
    requires countable { Each (λ k. k < 2 ^ 32 - 1) parts.old.made }
    ensures { (q : ℕ) → IsTurned plan.now.unit.now plan.now.placement.now q plan.now.leaving (act_of result room.new) parts.old parts.new slot }
{
    match need {
        Need::New { class } => create_turn(plan, parts, slot, class, room),
        Need::Send { to, method, args } => {
            call_turn(plan, parts, slot, Sending { to, method, args }, room)
        }
        Need::Async { to, method, args } => {
            async_turn(plan, parts, slot, Sending { to, method, args }, room)
        }
        Need::Write { item } => write_turn(plan.unit, parts, slot, item, room),
        Need::Answer => choose_turn(plan, parts, slot, room),
        Need::Select => choose_turn(plan, parts, slot, room),
        Need::Return {
            caller,
            number,
            value,
        } => {
            let returning = Returning {
                caller,
                number,
                value,
            };
            return_turn(plan, parts, slot, returning, room)
        }
        Need::Fault { error } => fault_turn(plan.unit, parts, slot, error, room),
        Need::Halted => TurnOutcome::Idle,
    }
}

/// Makes the step of a ready object: up to `quantum` local transitions, or its request.
fn slot_turn(
    plan: &NodePlan<'_>,
    parts: &mut NodeParts,
    slot: u32,
    quantum: u32,
    room: &mut StepOutput,
) -> TurnOutcome
    requires set { IsSet plan.now.unit.now plan.now.placement.now plan.now.leaving parts.old }
    requires slot { slot < length parts.old.heap.objects }
    requires free { get_or parts.old.outstanding slot None ≡ None }
    requires fault { get_or parts.old.faults slot None ≡ None }
    requires steps { can_step (arrivals (arrivals_of (box_of parts.old.mailbox slot))) (kind_of (code_kind plan.now.unit.now (object_at parts.old.heap slot))) ≡ true }
    requires quantum { 1 ≤ quantum }
    requires countable { Each (λ k. k < 2 ^ 32 - 1) parts.old.made }
    ensures { IsTurned plan.now.unit.now plan.now.placement.now quantum plan.now.leaving (act_of result room.new) parts.old parts.new slot }
{
    let object = name_of(parts, slot);
    match burst(plan.unit, &mut parts.heap, slot, quantum) {
        Burst::Local { steps } => {
            parts.refresh(plan.unit, slot);
            room.what = What::Step {
                label: Label::Local { object },
                times: steps,
            };
            TurnOutcome::Line
        }
        Burst::FramesFull => TurnOutcome::Full {
            kind: FullKind::Frames,
        },
        Burst::At(need) => need_turn(plan, parts, slot, need, room),
    }
}

/// The least ready slot from `from` on. None exactly if there is none.
pub fn first_ready(parts: &NodeParts, from: u32) -> Option<u32>
    requires whole { NodeInvariant parts.now }
    ensures { result ≡ first_bit_from from (take (length parts.now.heap.objects) parts.now.ready) }
{
    parts.ready.first_within(from, parts.heap.objects())
}

/// The slot whose turn it is: the least ready slot above the last, or else the least ready slot.
fn slot_in_turn(parts: &NodeParts) -> Option<u32>
    requires whole { NodeInvariant parts.now }
    ensures { result ≡ bit_in_turn parts.now.last (take (length parts.now.heap.objects) parts.now.ready) }
{
    if let Some(last) = parts.last
        && last < parts.heap.objects()
    {
        let above = first_ready(parts, last + 1);
        if above.is_some() {
            return above;
        }
    }
    first_ready(parts, 0)
}

/// Restores the last slot if the outcome is a limit.
fn keep_last(parts: &mut NodeParts, told: TurnOutcome, before: Option<u32>)
    ensures { (room : OneRoom) → parts.new ≡ kept (act_of told room) parts.old before }
{
    match told {
        TurnOutcome::Full { .. } => parts.last = before,
        TurnOutcome::Idle => {}
        TurnOutcome::Line => {}
        TurnOutcome::Leaves => {}
    }
}

/// Makes the step of the slot whose turn it is.
fn step_of(
    plan: &NodePlan<'_>,
    parts: &mut NodeParts,
    slot: u32,
    quantum: u32,
    room: &mut StepOutput,
) -> TurnOutcome
    requires whole { NodeInvariant parts.old }
    requires unit { IsOfUnit plan.now.unit.now (node_of parts.old) }
    requires placement { IsOfPlacement plan.now.unit.now plan.now.placement.now (node_of parts.old) }
    requires quantum { 1 ≤ quantum }
    requires cells { message_count (slots_of parts.old) + plan.now.leaving ≤ plan.now.placement.now.cells }
    requires countable { Each (λ k. k < 2 ^ 32 - 1) parts.old.made }
    requires turn { bit_in_turn parts.old.last (take (length parts.old.heap.objects) parts.old.ready) ≡ Some slot }
    ensures act { (fresh : ℕ) × IsUnused fresh (node_of parts.old).state
        × IsActOf (act_of result room.new) (node_of parts.old) (node_of parts.new) (turn_act (coded plan.now.unit.now) plan.now.placement.now quantum parts.old.id plan.now.leaving fresh (node_of parts.old).state) }
    ensures whole { NodeInvariant parts.new }
    ensures unit { IsOfUnit plan.now.unit.now (node_of parts.new) }
{
    let before = parts.last;
    // Called for its contract: the frames are within their limit.
    let _frames = parts.heap.frames();
    parts.last = Some(slot);
    let told = slot_turn(plan, parts, slot, quantum, room);
    keep_last(parts, told, before);
    // Called for its contract: the frames are within their limit.
    let _frames = parts.heap.frames();
    told
}

/// Makes a turn of a node: the object whose turn it is makes up to `quantum` local transitions, or one other step.
/// Returns `Idle` exactly if no object is ready, and `Full` exactly if the step would exceed a limit of the node.
pub fn turn_of(
    plan: &NodePlan<'_>,
    parts: &mut NodeParts,
    quantum: u32,
    room: &mut StepOutput,
) -> TurnOutcome
    requires whole { NodeInvariant parts.old }
    requires unit { IsOfUnit plan.now.unit.now (node_of parts.old) }
    requires placement { IsOfPlacement plan.now.unit.now plan.now.placement.now (node_of parts.old) }
    requires quantum { 1 ≤ quantum }
    requires cells { message_count (slots_of parts.old) + plan.now.leaving ≤ plan.now.placement.now.cells }
    requires countable { Each (λ k. k < 2 ^ 32 - 1) parts.old.made }
    ensures act { (fresh : ℕ) × IsUnused fresh (node_of parts.old).state
        × IsActOf (act_of result room.new) (node_of parts.old) (node_of parts.new) (turn_act (coded plan.now.unit.now) plan.now.placement.now quantum parts.old.id plan.now.leaving fresh (node_of parts.old).state) }
    ensures whole { NodeInvariant parts.new }
    ensures unit { IsOfUnit plan.now.unit.now (node_of parts.new) }
{
    match slot_in_turn(parts) {
        Some(slot) => step_of(plan, parts, slot, quantum, room),
        None => TurnOutcome::Idle,
    }
}
