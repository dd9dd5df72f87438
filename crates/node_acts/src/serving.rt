//! The step of an object that answers or selects.
ghost use Rattle.std.specs.Prelude.{◌≡◌, ℕ, ◌<◌, true, None, Some, is_some, length, get_or};
ghost use Rattle.code_semantics.specs.Kinds.{code_kind};
ghost use Rattle.node_heap.specs.Heaps.{object_at};
ghost use Rattle.slot_queues.specs.Mail.{box_of};
ghost use Rattle.object_interp.specs.Offers.{IsChoosing, offer_at, offers_at, open_names};
ghost use Rattle.node_state.specs.Choices.{first_of_these, place_called};
ghost use Rattle.node_acts.specs.ActOf.{act_of};
ghost use Rattle.node_acts.specs.NodeSteps.{IsSet, IsTurned, taken_label};

use crate::acts::{name_of, step};
use crate::types::{NodePlan, StepOutput, TurnOutcome};
use code_semantics::Unit;
use mailbox::Message;
use node_state::NodeParts;
use object_interp::plain_alt;
use run_types::{FullKind, Label, Placement};

/// The label of an accepted message: an answer to its caller, or an asynchronous message.
fn label_of(object: u32, message: &Message) -> Label
    ensures { result ≡ taken_label object message.now }
{
    let Message {
        from,
        method,
        args,
        call,
    } = *message;
    if call.is_some() {
        Label::Answer {
            receiver: object,
            caller: from,
            method,
            args,
        }
    } else {
        Label::Take {
            receiver: object,
            sender: from,
            method,
            args,
        }
    }
}

/// Accepts the first message that alternative `alt` answers, unless there is no frame for its method.
fn serve_turn(
    plan: &NodePlan<'_>,
    parts: &mut NodeParts,
    slot: u32,
    alt: u32,
    room: &mut StepOutput,
) -> TurnOutcome
    requires set { IsSet plan.now.unit.now plan.now.placement.now plan.now.leaving parts.old }
    requires slot { slot < length parts.old.heap.objects }
    requires free { get_or parts.old.outstanding slot None ≡ None }
    requires choosing { IsChoosing (code_kind plan.now.unit.now (object_at parts.old.heap slot)) }
    requires first { first_of_these (box_of parts.old.mailbox slot) 1 (offers_at plan.now.unit.now (object_at parts.old.heap slot)) ≡ Some alt }
    requires called { is_some (place_called (box_of parts.old.mailbox slot) (open_names (offer_at (offers_at plan.now.unit.now (object_at parts.old.heap slot)) alt))) ≡ true }
    ensures { (q : ℕ) → IsTurned plan.now.unit.now plan.now.placement.now q plan.now.leaving (act_of result room.new) parts.old parts.new slot }
{
    if parts.heap.frames() >= plan.placement.frames {
        return TurnOutcome::Full {
            kind: FullKind::Frames,
        };
    }
    let object = name_of(parts, slot);
    match parts.serve(plan.unit, slot, alt) {
        Some(message) => {
            room.what = step(label_of(object, &message));
            TurnOutcome::Line
        }
        None => TurnOutcome::Idle,
    }
}

/// Chooses alternative `alt`, which is the first possible one.
fn choose(
    plan: &NodePlan<'_>,
    parts: &mut NodeParts,
    slot: u32,
    alt: u32,
    room: &mut StepOutput,
) -> TurnOutcome
    requires set { IsSet plan.now.unit.now plan.now.placement.now plan.now.leaving parts.old }
    requires slot { slot < length parts.old.heap.objects }
    requires free { get_or parts.old.outstanding slot None ≡ None }
    requires choosing { IsChoosing (code_kind plan.now.unit.now (object_at parts.old.heap slot)) }
    requires first { first_of_these (box_of parts.old.mailbox slot) 1 (offers_at plan.now.unit.now (object_at parts.old.heap slot)) ≡ Some alt }
    ensures { (q : ℕ) → IsTurned plan.now.unit.now plan.now.placement.now q plan.now.leaving (act_of result room.new) parts.old parts.new slot }
{
    if plain_alt(plan.unit, &parts.heap, slot, alt) {
        let object = name_of(parts, slot);
        parts.pick(plan.unit, slot, alt);
        room.what = step(Label::Pick { object, alt });
        return TurnOutcome::Line;
    }
    serve_turn(plan, parts, slot, alt, room)
}

/// Chooses the first possible alternative.
pub fn choose_turn(
    plan: &NodePlan<'_>,
    parts: &mut NodeParts,
    slot: u32,
    room: &mut StepOutput,
) -> TurnOutcome
    requires set { IsSet plan.now.unit.now plan.now.placement.now plan.now.leaving parts.old }
    requires slot { slot < length parts.old.heap.objects }
    requires free { get_or parts.old.outstanding slot None ≡ None }
    requires choosing { IsChoosing (code_kind plan.now.unit.now (object_at parts.old.heap slot)) }
    requires possible { is_some (first_of_these (box_of parts.old.mailbox slot) 1 (offers_at plan.now.unit.now (object_at parts.old.heap slot))) ≡ true }
    ensures { (q : ℕ) → IsTurned plan.now.unit.now plan.now.placement.now q plan.now.leaving (act_of result room.new) parts.old parts.new slot }
{
    match parts.first_possible(plan.unit, slot) {
        Some(alt) => choose(plan, parts, slot, alt, room),
        None => TurnOutcome::Idle,
    }
}
