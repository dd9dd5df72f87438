//! The parts of a station.
use code_semantics::Unit;
use mesh_routing::Links;
use pool_node::Node;
use rendezvous_protocol::Packet;
use table_routing::Table;

/// The parts of a station: the unit, the routes of the placement, the largest number of local transitions of a turn,
/// and the node; the packets on the links that leave the node and are not acknowledged; by the number of a neighbour,
/// how many packets of the link to it are acknowledged, and how many packets of the link from it have come in order;
/// and how many steps the node has made.
#[derive(Drop)]
pub(crate) struct StationParts<'a> {
    pub unit: &'a Unit,
    pub table: Table<'a>,
    pub quantum: u32,
    pub id: u32,
    pub node: Node,
    pub links: Links<Packet>,
    pub acked: Vec<u64>,
    pub handed: Vec<u64>,
    pub steps: u64,
    // At least the number of objects of any one class that the node has made.
    pub made: u32,
}
