//! The near end of a link: acknowledgements, and packets that are sent again.
ghost use Rattle.std.specs.Prelude.{◌≡◌, ◌<◌, ◌≤◌, ◌+◌, ◌-◌, ◌*◌, Option, drop, get_or, length};
ghost use Rattle.run_types.specs.Tables.{list_at, pair_cmp, put_list};
ghost use Rattle.run_types.specs.Paths.{IsLink};
ghost use Rattle.mesh_routing.specs.Links.{IsLinkOf, with_links};
ghost use Rattle.station_semantics.specs.Station.{heard, sent_again};
ghost use Rattle.node_station.specs.Outcomes.{IsOfSameRun, frame_with};
ghost use Rattle.node_station.specs.StationOf.{station_of};
ghost use Rattle.node_station.specs.Parts.{IsStation, view_of};

use crate::parts::StationParts;
use mesh_routing::Links;
use rendezvous_protocol::Packet;

/// Removes the first `count` packets of a link. Requires as many, and at least one.
fn forget(links: &mut Links<Packet>, from: u32, to: u32, count: u32)
    requires link { IsLinkOf links.old from to }
    requires some { 1 ≤ count }
    requires there { count ≤ length (list_at pair_cmp (from, to) links.old.links) }
    ensures { links.new ≡ with_links links.old (put_list pair_cmp (from, to) (drop count (list_at pair_cmp (from, to) links.old.links)) links.old.links) }
{
    let _ = links.move_head(from, to);
    for _i in 1..count {
        let _ = links.move_head(from, to);
    }
}

/// Takes an acknowledgement from a neighbour: the packets with smaller numbers have come. Another number than that of a
/// packet of the link, or of the one after the last, changes nothing.
pub(crate) fn hear(parts: &mut StationParts<'_>, to: u32, number: u64)
    requires whole { IsStation parts.old }
    requires link { IsLink parts.old.table (parts.old.id, to) }
    ensures whole { IsStation parts.new }
    ensures run { IsOfSameRun (view_of parts.old) (view_of parts.new) }
    ensures heard { station_of (view_of parts.new) ≡ heard parts.old.id to number (station_of (view_of parts.old)) }
{
    let acked = parts.acked[to as usize];
    if number <= acked {
        return;
    }
    let more = number - acked;
    if more > u64::from(parts.links.length(parts.id, to)) {
        return;
    }
    forget(&mut parts.links, parts.id, to, more as u32);
    parts.acked[to as usize] = number;
}

/// The packet with this number on the link to a neighbour, if it is not acknowledged.
pub(crate) fn packet_in(parts: &StationParts<'_>, to: u32, number: u64) -> Option<Packet>
    requires whole { IsStation parts.now }
    requires link { IsLink parts.now.table (parts.now.id, to) }
    ensures { sent_again parts.now.id (station_of (view_of parts.now)) (to, number) ≡ frame_with to number result }
{
    let acked = parts.acked[to as usize];
    if number < acked {
        return None;
    }
    let place = number - acked;
    if place >= u64::from(parts.links.length(parts.id, to)) {
        return None;
    }
    match parts.links.at(parts.id, to, place as u32) {
        Some(packet) => Some(*packet),
        None => None,
    }
}
