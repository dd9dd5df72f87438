//! The receipt of a packet at its goal.
ghost use Rattle.std.specs.Prelude.{◌≡◌, ℕ, ◌+◌, ◌<◌, ◌≤◌, ◌↔◌, None, Some, IsTrue, length};
ghost use Rattle.run_types.specs.declared.types.Placement.{Placement as OnePlacement};
ghost use Rattle.run_types.specs.declared.types.What.TheVariants as W;
ghost use Rattle.code_semantics.specs.Step.{class_from};
ghost use Rattle.mesh_semantics.specs.Delay as D;
ghost use Rattle.run_types.specs.ObjectNames as DObjectNames;
ghost use Rattle.mesh_of_code.specs.Coded.{coded};
ghost use Rattle.node_semantics.specs.Node as N;
ghost use Rattle.node_semantics.specs.Node.{deliver, receipt, receipt_act, message_count};
ghost use Rattle.pool_node.specs.Acceptable.{IsAcceptable};
ghost use Rattle.rendezvous_protocol.specs.Packets.{numbered};
ghost use Rattle.node_state.specs.OfUnit.{IsOfPlacement, IsOfUnit};
ghost use Rattle.node_acts.specs.ActOf.{act_of};
ghost use Rattle.node_turns.specs.Acts.{IsActOf};
ghost use Rattle.node_state.specs.Views.{NodeInvariant, arrival_of, node_of, slots_of};
ghost use Rattle.node_acts.specs.NodeSteps.{ReportsAct, IsSet};
ghost use Rattle.pool_node.specs.SettledNumber.{settled_number};

use code_semantics::Unit;
use mailbox::Message;
use node_acts::{
    NodePlan, StepOutput, TurnOutcome, deliver_to, name_of, no_cell, settle_if_out, step,
};
use node_heap::HeapFull;
use node_state::NodeParts;
use rendezvous_protocol::Packet;
use run_types::{FullKind, Label, NameId, Placement, Value, What, slot_of};

/// A request of another node's object for a new object: its number, the object, and the class by index and name.
#[derive(Clone, Copy)]
struct Creating {
    number: u32,
    from: u32,
    class: u32,
    name: NameId,
}

/// The index of the first class of this name. None if there is none.
pub(crate) fn class_named(unit: &Unit, class: NameId) -> Option<u32>
    requires few { length unit.now.classes ≤ 256 }
    ensures { result ≡ class_from 0 unit.now.classes class }
{
    let classes = unit.classes.items();
    for place in 0..classes.len() {
        if classes[place].name.0 == class.0 {
            return Some(place as u32);
        }
    }
    None
}

/// Reports whether a packet can be received at its goal: the class of a new object exists, and a receiver has a slot.
pub(crate) fn can_receive(unit: &Unit, parts: &NodeParts, packet: &Packet) -> bool
    requires few { length unit.now.classes ≤ 256 }
    ensures { IsTrue result ↔ IsAcceptable (coded unit.now) (node_of parts.now).state (numbered packet.now).packet }
{
    match packet {
        Packet::Create { class, .. } => class_named(unit, *class).is_some(),
        Packet::Created { .. } | Packet::Result { .. } => true,
        Packet::Request { to, .. } | Packet::Async { to, .. } => {
            slot_of(*to) < parts.heap.objects()
        }
    }
}

/// Makes an object of this class for an object of another node. The new name leaves as a packet.
fn receive_create(
    plan: &NodePlan<'_>,
    parts: &mut NodeParts,
    creating: Creating,
    room: &mut StepOutput,
) -> TurnOutcome
    requires set { IsSet plan.now.unit.now plan.now.placement.now plan.now.leaving parts.old }
    requires class { creating.class < length plan.now.unit.now.classes }
    requires named { class_from 0 plan.now.unit.now.classes creating.name ≡ Some creating.class }
    ensures { (goal : ℕ)
        → ReportsAct plan.now.unit.now plan.now.placement.now plan.now.leaving (act_of result room.new) parts.old parts.new
        (receipt (coded plan.now.unit.now) parts.old.id (node_of parts.old).state (Some creating.number) (D.Create creating.from goal creating.name.0)) }
{
    let Creating {
        number,
        from,
        class,
        name,
    } = creating;
    if parts.heap.objects() >= plan.placement.objects {
        return TurnOutcome::Full {
            kind: FullKind::Heap,
        };
    }
    if parts.heap.frames() >= plan.placement.frames {
        return TurnOutcome::Full {
            kind: FullKind::Frames,
        };
    }
    if no_cell(plan, parts) {
        return TurnOutcome::Full {
            kind: FullKind::Cells,
        };
    }
    match parts.add(plan.unit, class) {
        Ok(new) => {
            let object = name_of(parts, new);
            let label = Label::New {
                object: from,
                name: object,
                class: name,
            };
            room.what = step(label);
            room.packet = Packet::Created {
                number,
                to: from,
                name: object,
            };
            TurnOutcome::Leaves
        }
        Err(HeapFull::Objects) => TurnOutcome::Idle,
        Err(HeapFull::Frames) => TurnOutcome::Idle,
    }
}

/// Gives an object the value that arrived for it.
fn receive_value(
    unit: &Unit,
    parts: &mut NodeParts,
    number: u32,
    value: Value,
    what: What,
    room: &mut StepOutput,
) -> TurnOutcome
    requires whole { NodeInvariant parts.old }
    requires unit { IsOfUnit unit.now (node_of parts.old) }
    ensures { (l : OnePlacement) (leaving : ℕ) → IsSet unit.now l leaving parts.old
        → ReportsAct unit.now l leaving (act_of result room.new) parts.old parts.new (N.Acts what None (settled_number unit.now number value (node_of parts.old).state)) }
{
    settle_if_out(unit, parts, number, value);
    room.what = what;
    TurnOutcome::Line
}

/// Appends an arrived message to those of its receiver, unless it lacks a cell.
fn receive_message(
    plan: &NodePlan<'_>,
    parts: &mut NodeParts,
    to: u32,
    message: Message,
    room: &mut StepOutput,
) -> TurnOutcome
    requires set { IsSet plan.now.unit.now plan.now.placement.now plan.now.leaving parts.old }
    requires there { DObjectNames.slot_of to < length parts.old.heap.objects }
    ensures { ReportsAct plan.now.unit.now plan.now.placement.now plan.now.leaving (act_of result room.new) parts.old parts.new
        (N.Acts (W.Arrive message.from to message.method) None (deliver to (arrival_of message) (node_of parts.old).state)) }
{
    if no_cell(plan, parts) {
        return TurnOutcome::Full {
            kind: FullKind::Cells,
        };
    }
    room.what = What::Arrive {
        object: message.from,
        receiver: to,
        method: message.method,
    };
    deliver_to(plan.unit, parts, to, message);
    TurnOutcome::Line
}

/// Receives a packet of any kind.
fn received(
    plan: &NodePlan<'_>,
    parts: &mut NodeParts,
    packet: Packet,
    room: &mut StepOutput,
) -> TurnOutcome
    requires set { IsSet plan.now.unit.now plan.now.placement.now plan.now.leaving parts.old }
    requires packet { IsAcceptable (coded plan.now.unit.now) (node_of parts.old).state (numbered packet).packet }
    ensures { ReportsAct plan.now.unit.now plan.now.placement.now plan.now.leaving (act_of result room.new) parts.old parts.new
        (receipt (coded plan.now.unit.now) parts.old.id (node_of parts.old).state (numbered packet).number (numbered packet).packet) }
{
    match packet {
        Packet::Create {
            number,
            from,
            node: _,
            class,
        } => match class_named(plan.unit, class) {
            Some(place) => {
                let creating = Creating {
                    number,
                    from,
                    class: place,
                    name: class,
                };
                receive_create(plan, parts, creating, room)
            }
            None => TurnOutcome::Idle,
        },
        Packet::Created { number, to, name } => {
            let what = What::Created { object: to, name };
            receive_value(plan.unit, parts, number, Value::Ref(name), what, room)
        }
        Packet::Result { number, to, value } => {
            let what = What::Result { object: to, value };
            receive_value(plan.unit, parts, number, value, what, room)
        }
        Packet::Request {
            number,
            from,
            to,
            method,
            args,
        } => {
            let message = Message {
                from,
                method,
                args,
                call: Some(number),
            };
            receive_message(plan, parts, to, message, room)
        }
        Packet::Async {
            from,
            to,
            method,
            args,
        } => {
            let message = Message {
                from,
                method,
                args,
                call: None,
            };
            receive_message(plan, parts, to, message, room)
        }
    }
}

/// Receives a packet within the limits of the node.
pub(crate) fn receipt_of(
    plan: &NodePlan<'_>,
    parts: &mut NodeParts,
    packet: Packet,
    room: &mut StepOutput,
) -> TurnOutcome
    requires whole { NodeInvariant parts.old }
    requires unit { IsOfUnit plan.now.unit.now (node_of parts.old) }
    requires placement { IsOfPlacement plan.now.unit.now plan.now.placement.now (node_of parts.old) }
    requires cells { message_count (slots_of parts.old) + plan.now.leaving ≤ plan.now.placement.now.cells }
    requires packet { IsAcceptable (coded plan.now.unit.now) (node_of parts.old).state (numbered packet).packet }
    ensures act { IsActOf (act_of result room.new) (node_of parts.old) (node_of parts.new)
        (receipt_act (coded plan.now.unit.now) plan.now.placement.now parts.old.id plan.now.leaving (numbered packet) (node_of parts.old).state) }
    ensures whole { NodeInvariant parts.new }
    ensures unit { IsOfUnit plan.now.unit.now (node_of parts.new) }
{
    // Called for its contract: the frames are within their limit.
    let _frames = parts.heap.frames();
    let told = received(plan, parts, packet, room);
    // Called for its contract: the frames are within their limit.
    let _frames = parts.heap.frames();
    told
}
