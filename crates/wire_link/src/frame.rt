//! The frames of a wire.
use arrayvec::ArrayVec;
use rendezvous_protocol::Packet;

/// A frame of a wire: a packet with its number, or an acknowledgement. An acknowledgement has the number of packets
/// that the far end has received in order.
#[derive(Clone, Copy)]
pub enum Frame {
    Data { number: u32, packet: Packet },
    Ack { number: u32 },
}

/// The bytes of a frame, at most 96.
pub type FrameBytes = ArrayVec<u8, 96>;
