//! The packet that leaves a node, and the count of the steps.
ghost use Rattle.std.specs.Prelude.{◌≡◌, ◌<◌, ◌*◌, ◌-◌, ◌^◌};
ghost use Rattle.run_types.specs.LinkTables.{leaving};
ghost use Rattle.node_acts.specs.declared.types.TurnOutcome.TheVariants as T;
ghost use Rattle.node_station.specs.Parts.{IsPosted, IsSettled};

use crate::outcome::{StationFault, StationOutcome};
use crate::parts::StationParts;
use mesh_routing::Links;
use pool_node::TurnOutcome;
use rendezvous_protocol::{Packet, goal};
use table_routing::Table;

/// Appends a packet that leaves a node to the first link of its path, and returns the neighbour at the end of that
/// link. None if the packet goes to no other node of the mesh.
pub(crate) fn post(
    table: &Table<'_>,
    links: &mut Links<Packet>,
    at: u32,
    packet: &Packet,
) -> Option<u32>
    requires width { table.now.width ≡ links.old.width }
    requires height { table.now.height ≡ links.old.height }
    requires nodes { table.now.width * table.now.height < 2 ^ 32 }
    requires at { at < table.now.width * table.now.height }
    requires room { leaving links.old.links at < links.old.cells }
    ensures { IsPosted table.now at packet.now links.old result links.new }
{
    let placement = table.placement();
    let to = goal(packet);
    if to >= placement.width * placement.height {
        return None;
    }
    match table.next(at, to) {
        Some(next) => {
            let _ = links.put(at, next, *packet);
            Some(next)
        }
        None => None,
    }
}

/// Counts a step with this outcome of the node, and puts the packet that leaves on its link.
pub(crate) fn settle(
    parts: &mut StationParts<'_>,
    told: TurnOutcome,
    packet: &Packet,
) -> Result<StationOutcome, StationFault>
    requires width { parts.old.table.width ≡ parts.old.links.width }
    requires height { parts.old.table.height ≡ parts.old.links.height }
    requires nodes { parts.old.table.width * parts.old.table.height < 2 ^ 32 }
    requires at { parts.old.id < parts.old.table.width * parts.old.table.height }
    requires room { told ≡ T.Leaves → leaving parts.old.links.links parts.old.id < parts.old.links.cells }
    requires steps { parts.old.steps < 2 ^ 64 - 1 }
    ensures settled { IsSettled parts.old.table parts.old.id told packet.now parts.old.links parts.old.steps result parts.new.links parts.new.steps }
    ensures rest { parts.new ≡ record parts.old { links = parts.new.links; steps = parts.new.steps } }
{
    match told {
        TurnOutcome::Idle => Ok(StationOutcome::Silent),
        TurnOutcome::Full { kind } => Ok(StationOutcome::Full { kind }),
        TurnOutcome::Line => {
            parts.steps += 1;
            Ok(StationOutcome::Line)
        }
        TurnOutcome::Leaves => {
            parts.steps += 1;
            match post(&parts.table, &mut parts.links, parts.id, packet) {
                Some(to) => Ok(StationOutcome::Puts { to }),
                None => Err(StationFault::Strays),
            }
        }
    }
}
