//! What is between the nodes of a machine.
use crate::wires::Wires;
use mesh_routing::Links;
use rendezvous_protocol::Packet;

/// What is between the nodes: the packets on the links, and the wires, if links are wires.
#[derive(Drop)]
pub struct Network {
    pub links: Links<Packet>,
    pub wires: Option<Wires>,
}
