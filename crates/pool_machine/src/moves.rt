//! The move of a link's head.
ghost use Rattle.std.specs.Prelude.{◌≡◌, ◌≢◌, map, Some, slice_get};
ghost use Rattle.run_types.specs.Paths.{IsLink};
ghost use Rattle.run_types.specs.Tables.{list_at, pair_cmp};
ghost use Rattle.mesh_semantics.specs.Act.{goal_node};
ghost use Rattle.mesh_of_code.specs.Coded.{coded};
ghost use Rattle.node_semantics.specs.Machine.{move_in};
ghost use Rattle.rendezvous_protocol.specs.Packets.{numbered};
ghost use Rattle.pool_machine.specs.DidOf.{did_of};
ghost use Rattle.pool_machine.specs.Parts.{NodesInvariant, NodesAreWellFormed, EachCount, IsDid, machine_from};

use crate::turns::post;
use crate::types::{Limit, Plan};
use mesh_routing::Links;
use pool_node::{Node, NodePlan, StepOutput, TurnOutcome};
use rendezvous_protocol::{Packet, goal};
use run_types::{FullKind, LinkId, What};

/// Moves the head of a link to its goal: the node receives it, and it leaves the link, unless this would exceed a
/// limit.
fn arrive(
    plan: &Plan<'_>,
    nodes: &mut [Node],
    links: &mut Links<Packet>,
    link: LinkId,
    packet: Packet,
    room: &mut StepOutput,
) -> Result<(), Limit>
    requires kept { NodesInvariant plan.now.unit.now plan.now.placement.now nodes.old links.old }
    requires table { plan.now.table ≡ plan.now.placement.now }
    requires link { IsLink plan.now.placement.now (link.from, link.to) }
    requires head { slice_get (list_at pair_cmp (link.from, link.to) links.old.links) 0 ≡ Some packet }
    requires goal { goal_node (numbered packet).packet ≡ link.to }
    ensures act { IsDid (did_of result room.new.what) nodes.old links.old nodes.new links.new
        (move_in (coded plan.now.unit.now) plan.now.placement.now (machine_from nodes.old links.old.links) link.from link.to (map numbered (list_at pair_cmp (link.from, link.to) links.old.links))) }
    ensures parts { NodesAreWellFormed plan.now.unit.now plan.now.placement.now nodes.new links.new }
    ensures counts { map (λ n. n.state.made) nodes.new ≡ map (λ n. n.state.made) nodes.old }
{
    let leaving = links.leaving(link.to);
    let node_plan = NodePlan {
        unit: plan.unit,
        placement: plan.placement,
        leaving,
    };
    match nodes[link.to as usize].receive_into(&node_plan, packet, room) {
        TurnOutcome::Line => {
            let _ = links.move_head(link.from, link.to);
            Ok(())
        }
        TurnOutcome::Leaves => {
            let _ = links.move_head(link.from, link.to);
            post(&plan.table, links, link.to, &room.packet);
            Ok(())
        }
        TurnOutcome::Full { kind } => Err(Limit {
            kind,
            node: link.to,
        }),
        TurnOutcome::Idle => {
            room.what = What::Idle;
            Ok(())
        }
    }
}

/// Moves the head of a link on to the next link of its path, unless the node has no cell for it.
fn pass(
    plan: &Plan<'_>,
    nodes: &[Node],
    links: &mut Links<Packet>,
    link: LinkId,
    packet: Packet,
    room: &mut StepOutput,
) -> Result<(), Limit>
    requires kept { NodesInvariant plan.now.unit.now plan.now.placement.now nodes.now links.old }
    requires table { plan.now.table ≡ plan.now.placement.now }
    requires link { IsLink plan.now.placement.now (link.from, link.to) }
    requires head { slice_get (list_at pair_cmp (link.from, link.to) links.old.links) 0 ≡ Some packet }
    requires goal { goal_node (numbered packet).packet ≢ link.to }
    ensures act { IsDid (did_of result room.new.what) nodes.now links.old nodes.now links.new
        (move_in (coded plan.now.unit.now) plan.now.placement.now (machine_from nodes.now links.old.links) link.from link.to (map numbered (list_at pair_cmp (link.from, link.to) links.old.links))) }
    ensures parts { NodesAreWellFormed plan.now.unit.now plan.now.placement.now nodes.now links.new }
{
    let waiting = nodes[link.to as usize].messages();
    let leaving = links.leaving(link.to);
    if waiting + leaving + 1 > plan.placement.cells {
        return Err(Limit {
            kind: FullKind::Cells,
            node: link.to,
        });
    }
    let _ = links.move_head(link.from, link.to);
    post(&plan.table, links, link.to, &packet);
    room.what = What::Pass;
    Ok(())
}

/// Moves the head of a link. The line is idle if the link is empty.
pub(crate) fn move_link(
    plan: &Plan<'_>,
    nodes: &mut [Node],
    links: &mut Links<Packet>,
    link: LinkId,
    room: &mut StepOutput,
) -> Result<(), Limit>
    requires kept { NodesInvariant plan.now.unit.now plan.now.placement.now nodes.old links.old }
    requires table { plan.now.table ≡ plan.now.placement.now }
    requires link { IsLink plan.now.placement.now (link.from, link.to) }
    ensures act { IsDid (did_of result room.new.what) nodes.old links.old nodes.new links.new
        (move_in (coded plan.now.unit.now) plan.now.placement.now (machine_from nodes.old links.old.links) link.from link.to (map numbered (list_at pair_cmp (link.from, link.to) links.old.links))) }
    ensures parts { NodesAreWellFormed plan.now.unit.now plan.now.placement.now nodes.new links.new }
    ensures counts { map (λ n. n.state.made) nodes.new ≡ map (λ n. n.state.made) nodes.old }
{
    let Some(head) = links.head(link.from, link.to) else {
        room.what = What::Idle;
        return Ok(());
    };
    let packet = *head;
    if goal(&packet) == link.to {
        arrive(plan, nodes, links, link, packet, room)
    } else {
        pass(plan, nodes, links, link, packet, room)
    }
}
