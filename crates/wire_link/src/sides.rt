//! The frames on one side of a wire, as bytes.
ghost use Rattle.std.specs.Prelude.{◌≡◌, length, nat_lt};
ghost use Rattle.run_types.specs.Tables.{Each};
ghost use Rattle.mesh_semantics.specs.Act.{first_of};
ghost use Rattle.mesh_semantics.specs.Wire.{capacity, push_within};
ghost use Rattle.wire_link.specs.Wires.{IsAck, IsData, TakesAck, TakesData, ack_in, acks_in, data_in, frames_in};

use crate::frame::Frame;
use crate::reading::decode;
use crate::ring::{Frames, write_ack, write_data};
use rendezvous_protocol::Packet;

/// Removes the first data frame, and returns its number and packet. None if there is none.
pub fn take_data(frames: &mut Frames) -> Option<(u32, Packet)>
    requires { Each IsData frames.old.items }
    ensures { TakesData frames.old.items frames.new.items result }
{
    match frames.get(0) {
        None => None,
        Some(first) => {
            let frame = decode(first);
            frames.skip(1);
            data_of(frame)
        }
    }
}

/// Removes the first acknowledgement, and returns its number. None if there is none.
pub fn take_ack(acks: &mut Frames) -> Option<u32>
    requires { Each IsAck acks.old.items }
    ensures { TakesAck acks.old.items acks.new.items result }
{
    match acks.get(0) {
        None => None,
        Some(first) => {
            let frame = decode(first);
            acks.skip(1);
            ack_of(frame)
        }
    }
}

/// The number and packet of the first data frame, if there is one.
pub fn first_data(frames: &Frames) -> Option<(u32, Packet)>
    requires { Each IsData frames.now.items }
    ensures { result ≡ first_of (frames_in frames.now.items) }
{
    match frames.get(0) {
        None => None,
        Some(first) => data_of(decode(first)),
    }
}

/// The number of the first acknowledgement, if there is one.
pub fn first_ack(acks: &Frames) -> Option<u32>
    requires { Each IsAck acks.now.items }
    ensures { result ≡ first_of (acks_in acks.now.items) }
{
    match acks.get(0) {
        None => None,
        Some(first) => ack_of(decode(first)),
    }
}

/// Appends a data frame unless the side is full, and reports whether it did.
pub fn put_data(frames: &mut Frames, number: u32, packet: &Packet) -> bool
    requires { Each IsData frames.old.items }
    ensures frames { frames_in frames.new.items ≡ push_within (number, packet.now) (frames_in frames.old.items) }
    ensures kept { Each IsData frames.new.items }
    ensures put { result ≡ nat_lt (length (frames_in frames.old.items)) capacity }
{
    if frames.is_full() {
        return false;
    }
    write_data(frames, number, packet);
    true
}

/// Appends an acknowledgement unless the side is full, and reports whether it did.
pub fn put_ack(acks: &mut Frames, number: u32) -> bool
    requires { Each IsAck acks.old.items }
    ensures acks { acks_in acks.new.items ≡ push_within number (acks_in acks.old.items) }
    ensures kept { Each IsAck acks.new.items }
    ensures put { result ≡ nat_lt (length (acks_in acks.old.items)) capacity }
{
    if acks.is_full() {
        return false;
    }
    write_ack(acks, number);
    true
}

/// The number and packet of a data frame.
fn data_of(frame: Option<Frame>) -> Option<(u32, Packet)>
    ensures { result ≡ first_of (data_in frame) }
{
    match frame {
        Some(Frame::Data { number, packet }) => Some((number, packet)),
        _ => None,
    }
}

/// The number of an acknowledgement.
fn ack_of(frame: Option<Frame>) -> Option<u32>
    ensures { result ≡ first_of (ack_in frame) }
{
    match frame {
        Some(Frame::Ack { number }) => Some(number),
        _ => None,
    }
}
