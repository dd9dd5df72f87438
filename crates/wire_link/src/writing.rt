//! Encoding of frames.
ghost use Rattle.std.specs.Prelude.{◌≡◌, ◌+◌, ◌≤◌, [], ◌++◌, length};
ghost use Rattle.arrayvec.specs.ArrayVec.{array_vec_len};
ghost use Rattle.wire_link.specs.Bytes.{ArgsFit, FrameFits, IsNumber, PacketFits, ValueFits, args_bytes, encoding, number_bytes, packet_bytes, value_bytes};
ghost use Rattle.wire_link.specs.declared.frame.Frame.TheVariants as F;

use crate::frame::{Frame, FrameBytes};
use arrayvec::ArrayVec;
use rendezvous_protocol::Packet;
use run_types::{Args, Value};

/// Appends bytes.
fn put(bytes: &mut FrameBytes, more: &[u8])
    requires { array_vec_len bytes.old + length more.now ≤ 96 }
    ensures items { bytes.new.items ≡ bytes.old.items ++ more.now }
{
    match bytes.try_extend_from_slice(more) {
        Ok(()) => {}
        Err(_) => unreachable!(),
    }
}

/// Appends a number, in 4 bytes.
fn put_number(bytes: &mut FrameBytes, number: u32)
    requires { array_vec_len bytes.old ≤ 92 }
    ensures items { bytes.new.items ≡ bytes.old.items ++ number_bytes number }
    ensures size { array_vec_len bytes.new ≡ array_vec_len bytes.old + 4 }
    ensures fits { IsNumber number }
{
    put(bytes, &number.to_be_bytes());
}

/// Appends a value, in at most 9 bytes.
fn put_value(bytes: &mut FrameBytes, value: Value)
    requires { array_vec_len bytes.old ≤ 87 }
    ensures items { bytes.new.items ≡ bytes.old.items ++ value_bytes value }
    ensures size { array_vec_len bytes.new ≤ array_vec_len bytes.old + 9 }
    ensures fits { ValueFits value }
{
    match value {
        Value::Int(integer) => {
            bytes.push(1);
            put(bytes, &integer.cast_unsigned().to_be_bytes());
        }
        Value::Bool(truth) => {
            bytes.push(2);
            bytes.push(truth as u8);
        }
        Value::Ref(name) => {
            bytes.push(3);
            put_number(bytes, name);
        }
        Value::Nil => bytes.push(4),
    }
}

/// Appends the count of the values, and the values.
fn put_args(bytes: &mut FrameBytes, args: &Args)
    requires { array_vec_len bytes.old ≤ 23 }
    ensures items { bytes.new.items ≡ bytes.old.items ++ args_bytes args.now }
    ensures fits { ArgsFit args.now }
{
    bytes.push(args.len() as u8);
    let values = args.values();
    for place in 0..args.len() {
        put_value(bytes, values[place]);
    }
}

/// Appends a packet.
fn put_packet(bytes: &mut FrameBytes, packet: &Packet)
    requires { array_vec_len bytes.old ≤ 5 }
    ensures items { bytes.new.items ≡ bytes.old.items ++ packet_bytes packet.now }
    ensures fits { PacketFits packet.now }
{
    match packet {
        Packet::Create {
            number,
            from,
            node,
            class,
        } => {
            bytes.push(1);
            put_number(bytes, *number);
            put_number(bytes, *from);
            put_number(bytes, *node);
            put_number(bytes, class.0);
        }
        Packet::Created { number, to, name } => {
            bytes.push(2);
            put_number(bytes, *number);
            put_number(bytes, *to);
            put_number(bytes, *name);
        }
        Packet::Request {
            number,
            from,
            to,
            method,
            args,
        } => {
            bytes.push(3);
            put_number(bytes, *number);
            put_number(bytes, *from);
            put_number(bytes, *to);
            put_number(bytes, method.0);
            put_args(bytes, args);
        }
        Packet::Result { number, to, value } => {
            bytes.push(4);
            put_number(bytes, *number);
            put_number(bytes, *to);
            put_value(bytes, *value);
        }
        Packet::Async {
            from,
            to,
            method,
            args,
        } => {
            bytes.push(5);
            put_number(bytes, *from);
            put_number(bytes, *to);
            put_number(bytes, method.0);
            put_args(bytes, args);
        }
    }
}

/// Writes the bytes of a data frame. Requires no bytes before it.
pub fn put_data_frame(bytes: &mut FrameBytes, number: u32, packet: &Packet)
    requires { bytes.old.items ≡ [] }
    ensures items { bytes.new.items ≡ encoding (F.Data number packet.now) }
    ensures fits { FrameFits (F.Data number packet.now) }
{
    bytes.push(1);
    put_number(bytes, number);
    put_packet(bytes, packet);
}

/// Writes the bytes of an acknowledgement. Requires no bytes before it.
pub fn put_ack_frame(bytes: &mut FrameBytes, number: u32)
    requires { bytes.old.items ≡ [] }
    ensures items { bytes.new.items ≡ encoding (F.Ack number) }
    ensures fits { FrameFits (F.Ack number) }
{
    bytes.push(2);
    put_number(bytes, number);
}

/// The encoding of a frame. Every frame has one.
pub fn encode(frame: &Frame) -> FrameBytes
    ensures items { result.items ≡ encoding frame.now }
    ensures fits { FrameFits frame.now }
{
    let mut bytes = ArrayVec::new();
    match frame {
        Frame::Data { number, packet } => put_data_frame(&mut bytes, *number, packet),
        Frame::Ack { number } => put_ack_frame(&mut bytes, *number),
    }
    bytes
}
