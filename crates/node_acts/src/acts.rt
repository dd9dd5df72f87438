//! The steps of an object of a node, but for answers, selects and new objects.
ghost use Rattle.std.specs.Prelude.{◌≡◌, ℕ, ◌+◌, ◌<◌, ◌≤◌, not, false, None, length, get_or, nat_lt, Option};
ghost use Rattle.run_types.specs.declared.types.Placement.{Placement as OnePlacement};
ghost use Rattle.run_types.specs.declared.types.What.TheVariants as W;
ghost use Rattle.rendezvous_protocol.specs.declared.packet.Packet.{Packet as OnePacket};
ghost use Rattle.code_semantics.specs.Kinds as C;
ghost use Rattle.code_semantics.specs.Kinds.{code_kind};
ghost use Rattle.run_types.specs.ObjectNames as D;
ghost use Rattle.node_heap.specs.Heaps.{object_at};
ghost use Rattle.node_semantics.specs.Node.{deliver, message_count, name_at, settled};
ghost use Rattle.mesh_of_code.specs.Coded.{coded};
ghost use Rattle.slot_queues.specs.Mail.{lengths};
ghost use Rattle.node_state.specs.OfUnit.{IsOfUnit};
ghost use Rattle.node_state.specs.Views.{NodeInvariant, arrival_of, node_of, slots_of};
ghost use Rattle.node_acts.specs.ActOf as A;
ghost use Rattle.node_acts.specs.ActOf.{act_of};
ghost use Rattle.node_acts.specs.NodeSteps.{IsLine, IsMoved, IsSet, IsTurned, lacks_cell, packet_by, posted};
ghost use Rattle.rendezvous_protocol.specs.Packets.{numbered};

use crate::types::{NodePlan, Returning, Sending, StepOutput, TurnOutcome};
use code_semantics::Unit;
use mailbox::Message;
use node_state::NodeParts;
use rendezvous_protocol::Packet;
use run_types::{
    Args, Error, FullKind, Item, Label, NameId, Placement, Value, What, node_of, object_name,
    slot_of,
};

/// The name of the object of a slot, or of the next slot.
pub fn name_of(parts: &NodeParts, slot: u32) -> u32
    requires whole { NodeInvariant parts.now }
    requires slot { slot ≤ length parts.now.heap.objects }
    ensures { result ≡ name_at parts.now.id slot }
{
    object_name(parts.heap.node(), slot)
}

/// Reports whether no cell is free for a message.
pub fn no_cell(plan: &NodePlan<'_>, parts: &NodeParts) -> bool
    requires whole { NodeInvariant parts.now }
    requires cells { message_count (slots_of parts.now) + plan.now.leaving ≤ plan.now.placement.now.cells }
    ensures { result ≡ not (nat_lt (message_count (slots_of parts.now) + plan.now.leaving) plan.now.placement.now.cells) }
{
    let cells = plan.placement.cells;
    parts.mailbox.count() + plan.leaving >= cells
}

/// The line of a step with this label.
pub fn step(label: Label) -> What
    ensures { result ≡ W.Step label 1 }
{
    What::Step { label, times: 1 }
}

/// Makes the step of a write.
pub fn write_turn(
    unit: &Unit,
    parts: &mut NodeParts,
    slot: u32,
    item: Item,
    room: &mut StepOutput,
) -> TurnOutcome
    requires whole { NodeInvariant parts.old }
    requires unit { IsOfUnit unit.now (node_of parts.old) }
    requires slot { slot < length parts.old.heap.objects }
    requires free { get_or parts.old.outstanding slot None ≡ None }
    requires kind { code_kind unit.now (object_at parts.old.heap slot) ≡ C.Write item }
    ensures { (l : OnePlacement) (q leaving : ℕ) → IsSet unit.now l leaving parts.old → IsTurned unit.now l q leaving (act_of result room.new) parts.old parts.new slot }
{
    let object = name_of(parts, slot);
    parts.go_on(unit, slot);
    room.what = step(Label::Write { object, item });
    TurnOutcome::Line
}

/// Makes the step of a run-time error.
pub fn fault_turn(
    unit: &Unit,
    parts: &mut NodeParts,
    slot: u32,
    error: Error,
    room: &mut StepOutput,
) -> TurnOutcome
    requires whole { NodeInvariant parts.old }
    requires unit { IsOfUnit unit.now (node_of parts.old) }
    requires slot { slot < length parts.old.heap.objects }
    requires free { get_or parts.old.outstanding slot None ≡ None }
    requires kind { code_kind unit.now (object_at parts.old.heap slot) ≡ C.Fault error }
    ensures { (l : OnePlacement) (q leaving : ℕ) → IsSet unit.now l leaving parts.old → IsTurned unit.now l q leaving (act_of result room.new) parts.old parts.new slot }
{
    let object = name_of(parts, slot);
    parts.fault(unit, slot, error);
    room.what = step(Label::Fault { object, error });
    TurnOutcome::Line
}

/// Reports whether a message to this object lacks a cell. A message needs a cell if it goes to an existing object of
/// this node, or leaves the node.
fn lacks(plan: &NodePlan<'_>, parts: &NodeParts, to: u32) -> bool
    requires whole { NodeInvariant parts.now }
    requires cells { message_count (slots_of parts.now) + plan.now.leaving ≤ plan.now.placement.now.cells }
    ensures { result ≡ lacks_cell plan.now.placement.now plan.now.leaving (node_of parts.now) to }
{
    if node_of(to) == parts.id && slot_of(to) >= parts.heap.objects() {
        return false;
    }
    no_cell(plan, parts)
}

/// Appends a message to those of this object of the node, if it exists.
pub fn deliver_to(unit: &Unit, parts: &mut NodeParts, to: u32, message: Message)
    requires whole { NodeInvariant parts.old }
    requires unit { IsOfUnit unit.now (node_of parts.old) }
    requires room { D.slot_of to < length parts.old.heap.objects → lengths parts.old.mailbox.boxes < parts.old.mailbox.cells }
    ensures { IsMoved unit.now parts.old parts.new (deliver to (arrival_of message) (node_of parts.old).state) }
{
    let slot = slot_of(to);
    if slot < parts.heap.objects() {
        parts.deliver(unit, slot, message);
    }
}

/// The packet of a message.
fn packet(to: u32, message: &Message) -> Packet
    ensures { numbered result ≡ record { number = message.now.call; packet = packet_by message.now.call message.now.from to message.now.method.0 message.now.args } }
{
    let Message {
        from,
        method,
        args,
        call,
    } = *message;
    match call {
        Some(number) => Packet::Request {
            number,
            from,
            to,
            method,
            args,
        },
        None => Packet::Async {
            from,
            to,
            method,
            args,
        },
    }
}

/// Posts a message. Requires a free cell if it needs one. A message to another node leaves as the packet in the output
/// buffer.
fn post(
    unit: &Unit,
    parts: &mut NodeParts,
    to: u32,
    message: Message,
    room: &mut StepOutput,
) -> TurnOutcome
    requires whole { NodeInvariant parts.old }
    requires unit { IsOfUnit unit.now (node_of parts.old) }
    requires room { D.node_of to ≡ parts.old.id → D.slot_of to < length parts.old.heap.objects → lengths parts.old.mailbox.boxes < parts.old.mailbox.cells }
    ensures { (l : OnePlacement) (leaving : ℕ) → message_count (slots_of parts.old) + leaving ≤ l.cells → lacks_cell l leaving (node_of parts.old) to ≡ false
        → (packet : Option OnePacket) × (act_of result room.new ≡ A.Line room.old.what packet)
        × IsLine unit.now l leaving room.old.what packet parts.old parts.new (posted room.old.what to message parts.old.id (node_of parts.old).state) }
{
    if node_of(to) == parts.id {
        deliver_to(unit, parts, to, message);
        TurnOutcome::Line
    } else {
        room.packet = packet(to, &message);
        TurnOutcome::Leaves
    }
}

/// Sends an asynchronous message, unless it lacks a cell.
pub fn async_turn(
    plan: &NodePlan<'_>,
    parts: &mut NodeParts,
    slot: u32,
    sending: Sending,
    room: &mut StepOutput,
) -> TurnOutcome
    requires set { IsSet plan.now.unit.now plan.now.placement.now plan.now.leaving parts.old }
    requires slot { slot < length parts.old.heap.objects }
    requires free { get_or parts.old.outstanding slot None ≡ None }
    requires kind { code_kind plan.now.unit.now (object_at parts.old.heap slot) ≡ C.Async sending.to sending.method sending.args }
    ensures { (q : ℕ) → IsTurned plan.now.unit.now plan.now.placement.now q plan.now.leaving (act_of result room.new) parts.old parts.new slot }
{
    let Sending { to, method, args } = sending;
    if lacks(plan, parts, to) {
        return TurnOutcome::Full {
            kind: FullKind::Cells,
        };
    }
    let from = name_of(parts, slot);
    parts.go_on(plan.unit, slot);
    let message = Message {
        from,
        method,
        args,
        call: None,
    };
    let label = Label::Send {
        object: from,
        receiver: to,
        method,
        args,
    };
    room.what = step(label);
    post(plan.unit, parts, to, message, room)
}

/// Posts a call, unless it lacks a cell.
pub fn call_turn(
    plan: &NodePlan<'_>,
    parts: &mut NodeParts,
    slot: u32,
    sending: Sending,
    room: &mut StepOutput,
) -> TurnOutcome
    requires set { IsSet plan.now.unit.now plan.now.placement.now plan.now.leaving parts.old }
    requires slot { slot < length parts.old.heap.objects }
    requires free { get_or parts.old.outstanding slot None ≡ None }
    requires kind { code_kind plan.now.unit.now (object_at parts.old.heap slot) ≡ C.Send sending.to sending.method sending.args }
    ensures { (q : ℕ) → IsTurned plan.now.unit.now plan.now.placement.now q plan.now.leaving (act_of result room.new) parts.old parts.new slot }
{
    let Sending { to, method, args } = sending;
    if lacks(plan, parts, to) {
        return TurnOutcome::Full {
            kind: FullKind::Cells,
        };
    }
    let from = name_of(parts, slot);
    let goal = parts.goals.items()[slot as usize];
    let number = parts.ask(plan.unit, slot, goal);
    let message = Message {
        from,
        method,
        args,
        call: Some(number),
    };
    room.what = What::PostCall {
        object: from,
        receiver: to,
        method,
        args,
    };
    post(plan.unit, parts, to, message, room)
}

/// Returns a value to a caller, unless its packet lacks a cell.
pub fn return_turn(
    plan: &NodePlan<'_>,
    parts: &mut NodeParts,
    slot: u32,
    returning: Returning,
    room: &mut StepOutput,
) -> TurnOutcome
    requires set { IsSet plan.now.unit.now plan.now.placement.now plan.now.leaving parts.old }
    requires slot { slot < length parts.old.heap.objects }
    requires free { get_or parts.old.outstanding slot None ≡ None }
    requires kind { code_kind plan.now.unit.now (object_at parts.old.heap slot) ≡ C.Return returning.caller returning.number returning.value }
    ensures { (q : ℕ) → IsTurned plan.now.unit.now plan.now.placement.now q plan.now.leaving (act_of result room.new) parts.old parts.new slot }
{
    let Returning {
        caller,
        number,
        value,
    } = returning;
    let receiver = name_of(parts, slot);
    let label = Label::Return {
        receiver,
        caller,
        value,
    };
    if node_of(caller) == parts.id {
        parts.end_method(plan.unit, slot);
        settle_if_out(plan.unit, parts, number, value);
        room.what = step(label);
        return TurnOutcome::Line;
    }
    if no_cell(plan, parts) {
        return TurnOutcome::Full {
            kind: FullKind::Cells,
        };
    }
    parts.end_method(plan.unit, slot);
    room.what = step(label);
    room.packet = Packet::Result {
        number,
        to: caller,
        value,
    };
    TurnOutcome::Leaves
}

/// Gives a value to the object whose outstanding request has this number, if there is one.
pub fn settle_if_out(unit: &Unit, parts: &mut NodeParts, number: u32, value: Value)
    requires whole { NodeInvariant parts.old }
    requires unit { IsOfUnit unit.now (node_of parts.old) }
    ensures { IsMoved unit.now parts.old parts.new (record (node_of parts.old).state { slots = settled (coded unit.now) number value (slots_of parts.old) }) }
{
    if parts.outstanding.is_out(number) {
        let _slot = parts.settle(unit, number, value);
    }
}
