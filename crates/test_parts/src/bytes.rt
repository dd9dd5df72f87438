//! Tests of the bytes of frames, worked out by hand. A frame has a byte for the
//! side, its number, a byte for the kind of packet, and the fields of the packet.
use crate::steps::{Step, answer};
use rendezvous_protocol::Packet;
use run_types::{Args, NameId, Value};
use wire_link::{Frame, Side, Wire, decode, encode};

/// A call of `m` with one value of each kind.
fn call() -> Packet {
    let mut args = Args::make();
    args.add(Value::Int(-2));
    args.add(Value::Bool(true));
    args.add(Value::Ref(258));
    args.add(Value::Nil);
    Packet::Request {
        number: 1,
        from: 0,
        to: 65536,
        method: NameId(3),
        args,
    }
}

/// Whether the frame is encoded as these bytes, and they are decoded to a frame with the same bytes.
fn has_bytes(frame: &Frame, wanted: &[u8]) -> bool {
    let bytes = encode(frame);
    match decode(&bytes) {
        Some(read) => (bytes.as_slice() == wanted) & (encode(&read).as_slice() == wanted),
        None => false,
    }
}

/// The bytes of the first frame of a side. Empty if there is no frame.
fn front(wire: &Wire, side: Side) -> &[u8] {
    match wire.front(side) {
        Some(bytes) => bytes.as_slice(),
        None => &[],
    }
}

fn begins_with(wire: &Wire, data: &[u8], ack: &[u8]) -> bool {
    (front(wire, Side::Data) == data) & (front(wire, Side::Ack) == ack)
}

#[test]
fn frames_have_the_bytes_that_were_worked_out(rt: HostRuntime) {
    let number = 7;
    let packet = call();
    let request: &[u8] = &[
        1, 0, 0, 0, 7, 3, 0, 0, 0, 1, 0, 0, 0, 0, 0, 1, 0, 0, 0, 0, 0, 3, 4, 1, 255, 255, 255, 255,
        255, 255, 255, 254, 2, 1, 3, 0, 0, 1, 2, 4,
    ];
    let data = has_bytes(&Frame::Data { number, packet }, request);
    let ack = has_bytes(&Frame::Ack { number: 16909060 }, &[2, 1, 2, 3, 4]);
    assert!(rt; data & ack);
}

#[test]
fn the_first_frame_of_a_side_is_at_hand(rt: HostRuntime) {
    let mut wire = Wire::make();
    let empty = begins_with(&wire, &[], &[]);
    answer(&mut wire, 1, Step::Send);
    let created: &[u8] = &[1, 0, 0, 0, 0, 2, 0, 0, 0, 5, 0, 1, 0, 0, 0, 0, 0, 70];
    let sent = begins_with(&wire, created, &[]);
    wire.arrive();
    let arrived = begins_with(&wire, &[], &[2, 0, 0, 0, 1]);
    assert!(rt; empty & sent & arrived);
}
