//! Packets that come from neighbours.
ghost use Rattle.std.specs.Prelude.{◌≡◌, ◌<◌, ◌≤◌, ◌+◌, ◌*◌, ◌-◌, ◌^◌, get_or, length, true, false};
ghost use Rattle.run_types.specs.Paths.{IsLink};
ghost use Rattle.mesh_semantics.specs.Act.{goal_node};
ghost use Rattle.mesh_of_code.specs.Coded.{coded};
ghost use Rattle.node_semantics.specs.Node.{message_count};
ghost use Rattle.rendezvous_protocol.specs.Packets.{numbered};
ghost use Rattle.node_state.specs.OfUnit.{IsOfPlacement, IsOfUnit};
ghost use Rattle.node_acts.specs.ActOf.{act_of};
ghost use Rattle.node_turns.specs.Acts.{IsActOf};
ghost use Rattle.pool_node.specs.Acceptable.{IsAcceptable};
ghost use Rattle.node_station.specs.Outcomes.{Comes, IsOfSameRun};
ghost use Rattle.node_station.specs.Parts.{IsStation, arrival_act, counted_in, view_of};

use crate::outcome::{StationFault, StationOutcome};
use crate::parts::StationParts;
use crate::posting::settle;
use crate::turning::has_numbers;
use pool_node::{Node, NodePlan, StepOutput, TurnOutcome};
use rendezvous_protocol::{Packet, goal};
use run_types::{FullKind, What};

/// Receives a packet at its goal, and lets another one pass. Requires that a packet at its goal is acceptable.
fn arrive(
    plan: &NodePlan<'_>,
    id: u32,
    node: &mut Node,
    packet: Packet,
    room: &mut StepOutput,
) -> TurnOutcome
    requires id { node.old.id ≡ id }
    requires unit { IsOfUnit plan.now.unit.now node.old }
    requires placement { IsOfPlacement plan.now.unit.now plan.now.placement.now node.old }
    requires cells { message_count node.old.state.slots + plan.now.leaving ≤ node.old.most_cells }
    requires packet { goal_node (numbered packet).packet ≡ id → IsAcceptable (coded plan.now.unit.now) node.old.state (numbered packet).packet }
    ensures act { IsActOf (act_of result room.new) node.old node.new (arrival_act (coded plan.now.unit.now) plan.now.placement.now id plan.now.leaving (numbered packet) node.old.state) }
    ensures unit { IsOfUnit plan.now.unit.now node.new }
    ensures made { node.new.state.made ≡ node.old.state.made }
{
    if goal(&packet) == id {
        return node.receive_into(plan, packet, room);
    }
    if node.messages() + plan.leaving + 1 > plan.placement.cells {
        return TurnOutcome::Full {
            kind: FullKind::Cells,
        };
    }
    room.what = What::Pass;
    room.packet = packet;
    TurnOutcome::Leaves
}

/// Reports whether a packet can be handed out: it goes to a node of the mesh, and at its goal it is acceptable.
fn is_fit(parts: &StationParts<'_>, packet: &Packet) -> bool
    requires { IsStation parts.now }
    ensures goal { result ≡ true → goal_node (numbered packet.now).packet < parts.now.table.width * parts.now.table.height }
    ensures here { result ≡ true → goal_node (numbered packet.now).packet ≡ parts.now.id → IsAcceptable (coded parts.now.unit.now) parts.now.node.state (numbered packet.now).packet }
    ensures no { result ≡ false → goal_node (numbered packet.now).packet < parts.now.table.width * parts.now.table.height
        → (goal_node (numbered packet.now).packet ≡ parts.now.id → IsAcceptable (coded parts.now.unit.now) parts.now.node.state (numbered packet.now).packet) → ⊥ }
{
    let placement = parts.table.placement();
    let to = goal(packet);
    if to >= placement.width * placement.height {
        return false;
    }
    to != parts.id || parts.node.can_receive(parts.unit, packet)
}

/// Counts a packet that has come in order from a neighbour, if the outcome is a line.
fn count_in(handed: &mut Vec<u64>, from: u32, outcome: &Result<StationOutcome, StationFault>)
    requires from { from < length handed.old.items }
    requires few { get_or handed.old.items from 0 < 2 ^ 64 - 1 }
    ensures { handed.new.items ≡ counted_in handed.old.items from outcome.now }
{
    match outcome {
        Ok(StationOutcome::Line) | Ok(StationOutcome::Puts { .. }) => handed[from as usize] += 1,
        Ok(StationOutcome::Silent) | Ok(StationOutcome::Full { .. }) | Err(_) => {}
    }
}

/// Takes a packet with its number from a neighbour. Only the next packet of the link is handed out.
pub(crate) fn data_of(
    parts: &mut StationParts<'_>,
    from: u32,
    number: u64,
    packet: Packet,
    room: &mut StepOutput,
) -> Result<StationOutcome, StationFault>
    requires whole { IsStation parts.old }
    requires link { IsLink parts.old.table (from, parts.old.id) }
    ensures whole { IsStation parts.new }
    ensures run { IsOfSameRun (view_of parts.old) (view_of parts.new) }
    ensures comes { Comes result room.new (view_of parts.old) (view_of parts.new) from number packet }
{
    if number != parts.handed[from as usize] {
        return Ok(StationOutcome::Silent);
    }
    if !is_fit(parts, &packet) {
        return Err(StationFault::Unfit);
    }
    if !has_numbers(parts) {
        return Err(StationFault::Spent);
    }
    let plan = NodePlan {
        unit: parts.unit,
        placement: parts.table.placement(),
        leaving: parts.links.leaving(parts.id),
    };
    let told = arrive(&plan, parts.id, &mut parts.node, packet, room);
    let outcome = settle(parts, told, &room.packet);
    count_in(&mut parts.handed, from, &outcome);
    outcome
}
