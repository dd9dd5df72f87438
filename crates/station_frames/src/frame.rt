//! The frames between stations.
use arrayvec::ArrayVec;
use rendezvous_protocol::Packet;

/// A frame between stations: a packet with its number among the packets of its link, or an acknowledgement. An
/// acknowledgement has the number of packets of the link that have come in order.
#[derive(Clone, Copy)]
pub enum StationFrame {
    Data { number: u64, packet: Packet },
    Ack { number: u64 },
}

/// The bytes of a frame with the number of its run, at most 104.
pub type StationBytes = ArrayVec<u8, 104>;
