//! The reports of a machine on its nodes and objects.
ghost use Rattle.std.specs.Prelude.{◌≡◌, ◌<◌, ◌*◌, ℕ, true, false, map, is_some, slice_get};
ghost use Rattle.std.specs.Option.{option_map};
ghost use Rattle.run_types.specs.Tables.{list_at, pair_cmp};
ghost use Rattle.run_types.specs.Paths.{AreNeighbours};
ghost use Rattle.run_types.specs.ObjectNames.{node_of, slot_of};
ghost use Rattle.mesh_of_code.specs.Coded.{coded};
ghost use Rattle.node_semantics.specs.Standings.{brings, machine_standing};
ghost use Rattle.node_semantics.specs.StandsFor.{slot_in};
ghost use Rattle.rendezvous_protocol.specs.Packets.{numbered};
ghost use Rattle.pool_node.specs.Standings.{told_standing};
ghost use Rattle.machine_network.specs.MachineOn.{AreOfUnit};
ghost use Rattle.pool_machine.specs.Parts.{NodesInvariant, IsMeshOf, machine_from};
ghost use Rattle.pool_machine.specs.ObjectReport.{has_fault, is_brought, slot_class};

use code_semantics::Unit;
use mesh_routing::{Links, Mesh};
use pool_node::Node;
use rendezvous_protocol::Packet;
use run_types::{NameId, Placement, Standing, node_of, slot_of};

/// Reports whether an object has met a run-time error.
pub(crate) fn has_faulted(nodes: &[Node]) -> bool
    ensures { result ≡ has_fault (map (λ n. n.state) nodes.now) }
{
    for node in nodes {
        if node.any_faulted() {
            return true;
        }
    }
    false
}

/// Reports whether the packet brings the object its value.
fn brings_to(packet: &Packet, name: u32) -> bool
    ensures { result ≡ brings name (numbered packet.now).packet }
{
    match *packet {
        Packet::Created { to, .. } | Packet::Result { to, .. } => to == name,
        _ => false,
    }
}

/// Reports whether a packet on the link brings the object its value.
fn link_brings(links: &Links<Packet>, from: u32, to: u32, name: u32) -> bool
    requires link { (from < links.now.width * links.now.height) × (to < links.now.width * links.now.height) × AreNeighbours links.now.width from to }
    ensures { result ≡ is_brought name (list_at pair_cmp (from, to) links.now.links) }
{
    for place in 0..links.leaving(from) {
        let Some(packet) = links.at(from, to, place) else {
            return false;
        };
        if brings_to(packet, name) {
            return true;
        }
    }
    false
}

/// Reports whether a packet on a link that leaves this node brings the object its value.
fn node_brings(mesh: &Mesh, links: &Links<Packet>, from: u32, name: u32) -> bool
    requires width { mesh.now.width ≡ links.now.width }
    requires height { mesh.now.height ≡ links.now.height }
    requires from { from < mesh.now.width * mesh.now.height }
    ensures yes { result ≡ true → (b : ℕ) × (is_brought name (list_at pair_cmp (from, b) links.now.links) ≡ true) }
    ensures no { result ≡ false → (b : ℕ) → b < mesh.now.width * mesh.now.height → AreNeighbours mesh.now.width from b → is_brought name (list_at pair_cmp (from, b) links.now.links) ≡ false }
{
    for to in 0..mesh.width * mesh.height {
        if mesh.is_link(from, to) && link_brings(links, from, to, name) {
            return true;
        }
    }
    false
}

/// Reports whether a packet on some link brings the object its value.
fn is_on_way(mesh: &Mesh, links: &Links<Packet>, name: u32) -> bool
    requires width { mesh.now.width ≡ links.now.width }
    requires height { mesh.now.height ≡ links.now.height }
    ensures yes { result ≡ true → (a : ℕ) × (b : ℕ) × (is_brought name (list_at pair_cmp (a, b) links.now.links) ≡ true) }
    ensures no { result ≡ false → (a b : ℕ) → a < mesh.now.width * mesh.now.height → b < mesh.now.width * mesh.now.height → AreNeighbours mesh.now.width a b
        → is_brought name (list_at pair_cmp (a, b) links.now.links) ≡ false }
{
    for from in 0..mesh.width * mesh.height {
        if links.leaving(from) > 0 && node_brings(mesh, links, from, name) {
            return true;
        }
    }
    false
}

/// Reports whether an object has this name.
fn has_object(nodes: &[Node], name: u32) -> bool
    ensures { result ≡ is_some (slot_in (slice_get (map (λ n. n.state) nodes.now) (node_of name)) (slot_of name)) }
{
    let node = node_of(name) as usize;
    node < nodes.len() && slot_of(name) < nodes[node].objects()
}

/// The status of the object of this name: due while its value is on a link, and else as its node reports. `placement`
/// is an argument for the contract only.
pub(crate) fn standing_in(
    unit: &Unit,
    placement: &Placement,
    mesh: &Mesh,
    nodes: &[Node],
    links: &Links<Packet>,
    name: u32,
) -> Option<Standing>
    requires kept { NodesInvariant unit.now placement.now nodes.now links.now }
    requires mesh { IsMeshOf placement.now mesh.now }
    ensures { option_map told_standing result ≡ machine_standing (coded unit.now) (machine_from nodes.now links.now.links) name }
{
    let _ = placement;
    if !has_object(nodes, name) {
        return None;
    }
    if is_on_way(mesh, links, name) {
        return Some(Standing::Due);
    }
    let node = node_of(name) as usize;
    Some(nodes[node].standing(unit, slot_of(name)))
}

/// The class of the object of this name. None if there is none.
pub(crate) fn class_in(unit: &Unit, nodes: &[Node], name: u32) -> Option<NameId>
    requires { AreOfUnit unit.now nodes.now }
    ensures { option_map (λ k. k.0) result ≡ slot_class unit.now (slot_in (slice_get (map (λ n. n.state) nodes.now) (node_of name)) (slot_of name)) }
{
    if !has_object(nodes, name) {
        return None;
    }
    let node = node_of(name) as usize;
    let class = nodes[node].class_of(slot_of(name));
    Some(unit.classes.items()[class as usize].name)
}
