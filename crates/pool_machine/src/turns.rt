//! The turn of a node, and the packet that leaves it.
ghost use Rattle.std.specs.Prelude.{◌≡◌, ◌≢◌, ◌<◌, ◌≤◌, ◌+◌, ◌-◌, ◌*◌, ◌^◌, ℕ};
ghost use Rattle.run_types.specs.declared.types.Event.TheVariants as Ev;
ghost use Rattle.run_types.specs.Tables.{pair_cmp};
ghost use Rattle.run_types.specs.LinkTables.{push_list, leaving};
ghost use Rattle.run_types.specs.Paths.{next};
ghost use Rattle.mesh_semantics.specs.Act.{goal_node};
ghost use Rattle.mesh_of_code.specs.Coded.{coded};
ghost use Rattle.node_semantics.specs.Machine.{machine_act};
ghost use Rattle.node_semantics.specs.Agrees.{IsFresh};
ghost use Rattle.rendezvous_protocol.specs.Packets.{numbered};
ghost use Rattle.pool_machine.specs.DidOf.{did_of};
ghost use Rattle.pool_machine.specs.Parts.{NodesInvariant, NodesAreWellFormed, EachCount, IsDid, machine_from};

use crate::types::{Limit, Plan};
use mesh_routing::Links;
use pool_node::{Node, NodePlan, StepOutput, TurnOutcome};
use rendezvous_protocol::{Packet, goal};
use run_types::What;
use table_routing::Table;

/// Appends a packet that leaves a node to the first link of its path.
#[inline(never)]
pub(crate) fn post(table: &Table<'_>, links: &mut Links<Packet>, at: u32, packet: &Packet)
    requires width { table.now.width ≡ links.old.width }
    requires height { table.now.height ≡ links.old.height }
    requires at { at < table.now.width * table.now.height }
    requires goal { goal_node (numbered packet.now).packet < table.now.width * table.now.height }
    requires away { at ≢ goal_node (numbered packet.now).packet }
    requires room { leaving links.old.links at < links.old.cells }
    ensures { links.new ≡ record links.old { links = push_list pair_cmp (at, next table.now at (goal_node (numbered packet.now).packet)) packet.now links.old.links } }
{
    let to = goal(packet);
    if let Some(next) = table.next(at, to) {
        let _ = links.put(at, next, *packet);
    }
}

/// Makes a turn of a node, and appends the packet that leaves it to its link.
pub(crate) fn turn(
    plan: &Plan<'_>,
    nodes: &mut [Node],
    links: &mut Links<Packet>,
    node: u32,
    quantum: u32,
    room: &mut StepOutput,
) -> Result<(), Limit>
    requires kept { NodesInvariant plan.now.unit.now plan.now.placement.now nodes.old links.old }
    requires table { plan.now.table ≡ plan.now.placement.now }
    requires node { node < plan.now.placement.now.width * plan.now.placement.now.height }
    requires quantum { 1 ≤ quantum }
    requires countable { EachCount (λ k. k < 2 ^ 32 - 1) nodes.old }
    ensures act { (fresh : ℕ) × IsFresh (machine_from nodes.old links.old.links) fresh (Ev.Turn node)
        × IsDid (did_of result room.new.what) nodes.old links.old nodes.new links.new
        (machine_act (coded plan.now.unit.now) plan.now.placement.now quantum fresh (machine_from nodes.old links.old.links) (Ev.Turn node)) }
    ensures parts { NodesAreWellFormed plan.now.unit.now plan.now.placement.now nodes.new links.new }
    ensures counts { (most : ℕ) → EachCount (λ k. k ≤ most) nodes.old → EachCount (λ k. k ≤ most + 1) nodes.new }
{
    let leaving = links.leaving(node);
    let node_plan = NodePlan {
        unit: plan.unit,
        placement: plan.placement,
        leaving,
    };
    match nodes[node as usize].turn_into(&node_plan, quantum, room) {
        TurnOutcome::Line => Ok(()),
        TurnOutcome::Leaves => {
            post(&plan.table, links, node, &room.packet);
            Ok(())
        }
        TurnOutcome::Full { kind } => Err(Limit { kind, node }),
        TurnOutcome::Idle => {
            room.what = What::Idle;
            Ok(())
        }
    }
}
