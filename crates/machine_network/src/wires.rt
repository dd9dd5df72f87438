//! The wires of a machine's links.
ghost use Rattle.std.specs.Prelude.{◌≡◌, ◌<◌, ◌≤◌, ◌+◌, ◌-◌, ◌*◌, ◌^◌, [], true, length, IfOk, OnOk};
ghost use Rattle.std.specs.BTreeMap.{IsOrdered, values};
ghost use Rattle.std.specs.List.{list_all};
ghost use Rattle.std.specs.Option.{option_map};
ghost use Rattle.run_types.specs.Tables.{list_at, pair_cmp};
ghost use Rattle.mesh_semantics.specs.KeptWire.{fresh_in, kept_act};
ghost use Rattle.run_types.specs.declared.types.WireAct.TheVariants as A;
ghost use Rattle.node_semantics.specs.Machine.{are_acknowledged};
ghost use Rattle.mesh_routing.specs.Links.{IsLinkOf};
ghost use Rattle.wire_link.specs.Wires.{late_of, lose_of, twice_of};
ghost use Rattle.machine_network.specs.LinkWires.{numbered_wires, entered_at, has_wire, is_done, wire_of, wires_in};
ghost use Rattle.machine_network.specs.WireReports.{AreNew, WireReports, LinkWireReports};

use mesh_routing::{Links, Mesh};
use rendezvous_protocol::Packet;
use run_types::{What, WireAct};
use std::alloc::{AllocError, Global};
use std::collections::BTreeMap;
use wire_link::{Sent, Side, Wire};

/// The wires by the ends of their links.
pub type Wires = BTreeMap<(u32, u32), Wire>;

/// Adds a new wire for each link that leaves a node.
fn add_wires(wires: &mut Wires, mesh: &Mesh, from: u32) -> Result<(), AllocError>
    requires from { from < mesh.now.width * mesh.now.height }
    requires before { AreNew mesh.now.width (mesh.now.width * mesh.now.height) from 0 wires.old.entries }
    ensures { OnOk result (AreNew mesh.now.width (mesh.now.width * mesh.now.height) (from + 1) 0 wires.new.entries) }
{
    for to in 0..mesh.width * mesh.height {
        if mesh.is_link(from, to) {
            wires.insert((from, to), Wire::make())?;
        }
    }
    Ok(())
}

/// Makes a wire for each link of a mesh. An error means out of memory.
pub fn all_wires(alloc: Global, mesh: &Mesh) -> Result<Wires, AllocError>
    ensures { IfOk result (λ ws. AreNew mesh.now.width (mesh.now.width * mesh.now.height) (mesh.now.width * mesh.now.height) 0 ws.entries) }
{
    let mut wires = BTreeMap::new(alloc);
    for from in 0..mesh.width * mesh.height {
        let Ok(()) = add_wires(&mut wires, mesh, from) else {
            return Err(AllocError);
        };
    }
    Ok(wires)
}

/// Reports whether on each wire every packet that was handed out is acknowledged.
fn all_acknowledged(wires: &Wires) -> bool
    ensures all { result ≡ list_all is_done (values wires.now) }
    ensures ordered { IsOrdered pair_cmp wires.now }
{
    for wire in wires.values() {
        if wire.acked() != wire.handed() {
            return false;
        }
    }
    true
}

/// Reports whether every packet that a wire handed out is acknowledged; true if links are not wires.
pub(crate) fn is_acknowledged(wires: &Option<Wires>) -> bool
    ensures { result ≡ are_acknowledged (option_map numbered_wires (wires_in wires.now)) }
{
    match wires {
        Some(wires) => all_acknowledged(wires),
        None => true,
    }
}

/// The packet with this number, if it was never sent.
fn fresh_on(wire: &Wire, links: &Links<Packet>, from: u32, to: u32, number: u32) -> Option<Packet>
    requires link { IsLinkOf links.now from to }
    requires handed { wire.now.handed ≤ wire.now.sent }
    ensures { result ≡ fresh_in number wire.now (list_at pair_cmp (from, to) links.now.links) }
{
    if number != wire.sent() {
        return None;
    }
    match links.at(from, to, number - wire.handed()) {
        Some(packet) => Some(*packet),
        None => None,
    }
}

/// Sends the frame that the wire wants, if it wants one.
fn send_on(wire: &mut Wire, links: &Links<Packet>, from: u32, to: u32) -> What
    requires link { IsLinkOf links.now from to }
    requires handed { wire.old.handed ≤ wire.old.sent }
    requires sent { wire.old.sent ≤ wire.old.handed + length (list_at pair_cmp (from, to) links.now.links) }
    requires few { wire.old.handed + length (list_at pair_cmp (from, to) links.now.links) < 2 ^ 32 - 1 }
    ensures { WireReports wire.old (kept_act A.Send (list_at pair_cmp (from, to) links.now.links) wire.old) result wire.new }
{
    let entered = wire.handed() + links.length(from, to);
    let Some(number) = wire.wants(entered) else {
        return What::Idle;
    };
    let fresh = fresh_on(wire, links, from, to, number);
    match wire.send(number, fresh) {
        Sent::Frame => What::Frame { number },
        Sent::Lost => What::Lost { number },
    }
}

/// The first acknowledgement comes back, if there is one.
fn ack_on(wire: &mut Wire) -> What
    ensures { WireReports wire.old (kept_act A.Ack [] wire.old) result wire.new }
{
    match wire.ack() {
        Some(number) => What::Acked { number },
        None => What::Idle,
    }
}

/// The first frame of a side is lost, if there is one.
fn lose_on(wire: &mut Wire, side: Side) -> What
    ensures { WireReports wire.old (kept_act (lose_of side) [] wire.old) result wire.new }
{
    match wire.lose(side) {
        Some(number) => What::Lost { number },
        None => What::Idle,
    }
}

/// Appends a copy of the first frame of a side, if there is one and the side has room.
fn twice_on(wire: &mut Wire, side: Side) -> What
    ensures { WireReports wire.old (kept_act (twice_of side) [] wire.old) result wire.new }
{
    match wire.twice(side) {
        Some(number) => What::Frame { number },
        None => What::Idle,
    }
}

/// Moves the first frame of a side after the others, if there is one.
fn late_on(wire: &mut Wire, side: Side) -> What
    ensures { WireReports wire.old (kept_act (late_of side) [] wire.old) result wire.new }
{
    match wire.late(side) {
        Some(number) => What::Late { number },
        None => What::Idle,
    }
}

/// Makes an event on a wire, other than the arrival of a data frame.
fn act_on(wire: &mut Wire, links: &Links<Packet>, act: WireAct, from: u32, to: u32) -> What
    requires link { IsLinkOf links.now from to }
    requires handed { wire.old.handed ≤ wire.old.sent }
    requires sent { wire.old.sent ≤ wire.old.handed + length (list_at pair_cmp (from, to) links.now.links) }
    requires few { wire.old.handed + length (list_at pair_cmp (from, to) links.now.links) < 2 ^ 32 - 1 }
    ensures { WireReports wire.old (kept_act act (list_at pair_cmp (from, to) links.now.links) wire.old) result wire.new }
{
    match act {
        WireAct::Send => send_on(wire, links, from, to),
        WireAct::Ack => ack_on(wire),
        WireAct::Lose => lose_on(wire, Side::Data),
        WireAct::Twice => twice_on(wire, Side::Data),
        WireAct::Late => late_on(wire, Side::Data),
        WireAct::LoseAck => lose_on(wire, Side::Ack),
        WireAct::TwiceAck => twice_on(wire, Side::Ack),
        WireAct::LateAck => late_on(wire, Side::Ack),
    }
}

/// Makes an event on the wire of a link, other than the arrival of a data frame, and reports it: idle if there was
/// nothing to do. Requires a link that has a wire, which has sent no packet that did not enter it, and fewer than
/// 2^32 - 1 packets that entered it.
pub fn act_at(wires: &mut Wires, links: &Links<Packet>, act: WireAct, from: u32, to: u32) -> What
    requires link { IsLinkOf links.now from to }
    requires there { has_wire wires.old.entries (from, to) ≡ true }
    requires handed { (wire_of wires.old.entries (from, to)).handed ≤ (wire_of wires.old.entries (from, to)).sent }
    requires sent { (wire_of wires.old.entries (from, to)).sent ≤ entered_at wires.old.entries links.now.links (from, to) }
    requires few { entered_at wires.old.entries links.now.links (from, to) < 2 ^ 32 - 1 }
    ensures { LinkWireReports wires.old.entries (from, to) (kept_act act (list_at pair_cmp (from, to) links.now.links) (wire_of wires.old.entries (from, to))) result wires.new.entries }
{
    match wires.get_mut(&(from, to)) {
        Some(wire) => act_on(wire, links, act, from, to),
        None => What::Idle,
    }
}
