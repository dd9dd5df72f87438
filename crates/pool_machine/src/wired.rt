//! The move of a link's head, if links are wires.
ghost use Rattle.std.specs.Prelude.{◌≡◌, Some, map, true};
ghost use Rattle.run_types.specs.Paths.{IsLink};
ghost use Rattle.run_types.specs.Tables.{Pair};
ghost use Rattle.mesh_semantics.specs.KeptWire.{kept_coming};
ghost use Rattle.mesh_of_code.specs.Coded.{coded};
ghost use Rattle.node_semantics.specs.Machine.{kept_at, kept_move};
ghost use Rattle.machine_network.specs.LinkWires.{numbered_wires, has_wire};
ghost use Rattle.machine_network.specs.MachineOn.{machine_on};
ghost use Rattle.pool_machine.specs.DidOf.{did_of};
ghost use Rattle.pool_machine.specs.Parts.{NodesInvariant, NodesAreWellFormed};
ghost use Rattle.pool_machine.specs.OnWires.{IsDidOn};

use crate::moves::move_link;
use crate::types::{Limit, Plan};
use machine_network::Wires;
use mesh_routing::Links;
use pool_node::{Node, StepOutput};
use rendezvous_protocol::Packet;
use run_types::{LinkId, What};
use wire_link::Arrived;

/// The first data frame of a link's wire comes to the far end. If it has the next packet, the head of the link moves.
/// Any other frame is dropped.
pub(crate) fn move_on_wire(
    plan: &Plan<'_>,
    nodes: &mut [Node],
    links: &mut Links<Packet>,
    wires: &mut Wires,
    link: LinkId,
    room: &mut StepOutput,
) -> Result<(), Limit>
    requires kept { NodesInvariant plan.now.unit.now plan.now.placement.now nodes.old links.old }
    requires table { plan.now.table ≡ plan.now.placement.now }
    requires link { IsLink plan.now.placement.now (link.from, link.to) }
    requires there { has_wire wires.old.entries (link.from, link.to) ≡ true }
    ensures act { IsDidOn (did_of result room.new.what) nodes.old links.old (Some wires.old.entries) nodes.new links.new (Some wires.new.entries)
        (kept_move (coded plan.now.unit.now) plan.now.placement.now (machine_on nodes.old links.old.links (Some wires.old.entries)) (numbered_wires wires.old.entries) link.from link.to
        (kept_coming (kept_at (numbered_wires wires.old.entries) (link.from, link.to)))) }
    ensures parts { NodesAreWellFormed plan.now.unit.now plan.now.placement.now nodes.new links.new }
    ensures counts { map (λ n. n.state.made) nodes.new ≡ map (λ n. n.state.made) nodes.old }
    ensures there { (k : Pair) → has_wire wires.old.entries k ≡ true → has_wire wires.new.entries k ≡ true }
{
    let Some(wire) = wires.get_mut(&(link.from, link.to)) else {
        unreachable!();
    };
    match wire.peek() {
        Arrived::Empty => {
            room.what = What::Idle;
            Ok(())
        }
        Arrived::Stale { number } => {
            let _ = wire.arrive();
            room.what = What::Stale { number };
            Ok(())
        }
        Arrived::Next { .. } => {
            match move_link(plan, nodes, links, link, room) {
                Ok(()) => {
                    let _ = wire.arrive();
                    Ok(())
                }
                Err(limit) => Err(limit),
            }
        }
    }
}
