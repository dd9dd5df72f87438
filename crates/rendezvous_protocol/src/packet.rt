//! The packets between nodes.
ghost use Rattle.std.specs.Prelude.{◌≡◌};
ghost use Rattle.mesh_semantics.specs.Act.{goal_node};
ghost use Rattle.rendezvous_protocol.specs.Packets.{numbered};

use run_types::{Args, NameId, Value, node_of};

/// A packet from one node to another. `from` and `to` are names of objects. `number` is the number of the packet's
/// request, as the requester's node issued it. An asynchronous message has no number.
#[derive(Clone, Copy)]
pub enum Packet {
    /// Requests a new object of a class from `node`.
    Create {
        number: u32,
        from: u32,
        node: u32,
        class: NameId,
    },
    /// Reports the name of the new object that `to` requested.
    Created {
        number: u32,
        to: u32,
        name: u32,
    },
    /// A synchronous call.
    Request {
        number: u32,
        from: u32,
        to: u32,
        method: NameId,
        args: Args,
    },
    /// The value of the call that `to` made.
    Result {
        number: u32,
        to: u32,
        value: Value,
    },
    /// An asynchronous message.
    Async {
        from: u32,
        to: u32,
        method: NameId,
        args: Args,
    },
}

impl Default for Packet {
    fn default() -> Packet {
        Packet::Created {
            number: 0,
            to: 0,
            name: 0,
        }
    }
}

/// The node to which the packet goes.
pub fn goal(packet: &Packet) -> u32
    ensures { result ≡ goal_node (numbered packet.now).packet }
{
    match packet {
        Packet::Create { node, .. } => *node,
        Packet::Created { to, .. }
        | Packet::Request { to, .. }
        | Packet::Result { to, .. }
        | Packet::Async { to, .. } => node_of(*to),
    }
}
