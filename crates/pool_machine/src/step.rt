//! The step of an event on nodes, links and wires.
ghost use Rattle.std.specs.Prelude.{◌≡◌, ◌<◌, ◌≤◌, ◌+◌, ◌-◌, ◌^◌, ℕ, is_some};
ghost use Rattle.machine_network.specs.LinkWires.{wires_in};
ghost use Rattle.pool_machine.specs.DidOf.{did_of};
ghost use Rattle.pool_machine.specs.Answers.{IsOfMesh, IsServed};
ghost use Rattle.pool_machine.specs.Parts.{NodesAreWellFormed, EachCount};
ghost use Rattle.pool_machine.specs.OnWires.{WiredMachineInvariant, EachEntered, HaveWires, EventMakes};

use crate::moves::move_link;
use crate::turns::turn;
use crate::types::{Limit, Plan};
use crate::wired::move_on_wire;
use machine_network::{Network, act_at};
use pool_node::{Node, StepOutput};
use run_types::{Event, LinkId};

/// Makes an event as the definition of nodes, links and wires says, for some request number that is not outstanding.
pub(crate) fn step(
    plan: &Plan<'_>,
    nodes: &mut [Node],
    network: &mut Network,
    event: &Event,
    quantum: u32,
    room: &mut StepOutput,
) -> Result<(), Limit>
    requires kept { WiredMachineInvariant plan.now.unit.now plan.now.placement.now nodes.old network.old.links (wires_in network.old.wires) }
    requires table { plan.now.table ≡ plan.now.placement.now }
    requires event { IsOfMesh plan.now.placement.now event.now }
    requires served { IsServed (is_some (wires_in network.old.wires)) event.now }
    requires quantum { 1 ≤ quantum }
    requires countable { EachCount (λ k. k < 2 ^ 32 - 1) nodes.old }
    requires few { EachEntered (λ k. k < 2 ^ 32 - 1) (wires_in network.old.wires) network.old.links.links }
    ensures act { EventMakes plan.now.unit.now plan.now.placement.now quantum event.now (did_of result room.new.what) nodes.old network.old.links (wires_in network.old.wires) nodes.new network.new.links (wires_in network.new.wires) }
    ensures parts { NodesAreWellFormed plan.now.unit.now plan.now.placement.now nodes.new network.new.links }
    ensures counts { (most : ℕ) → EachCount (λ k. k ≤ most) nodes.old → EachCount (λ k. k ≤ most + 1) nodes.new }
    ensures there { HaveWires plan.now.placement.now (wires_in network.new.wires) }
    ensures lossy { is_some (wires_in network.new.wires) ≡ is_some (wires_in network.old.wires) }
{
    match *event {
        Event::Turn { node } => turn(plan, nodes, &mut network.links, node, quantum, room),
        Event::Link { from, to } => {
            let link = LinkId { from, to };
            match &mut network.wires {
                Some(wires) => move_on_wire(plan, nodes, &mut network.links, wires, link, room),
                None => move_link(plan, nodes, &mut network.links, link, room),
            }
        }
        Event::Wire { act, from, to } => match &mut network.wires {
            Some(wires) => {
                room.what = act_at(wires, &network.links, act, from, to);
                Ok(())
            }
            None => unreachable!(),
        },
    }
}
