//! Encoding of frames.
ghost use Rattle.std.specs.Prelude.{◌≡◌, ◌+◌, ◌≤◌, ◌<◌, ◌^◌, ◌/◌, ◌%◌, ◌++◌, length};
ghost use Rattle.arrayvec.specs.ArrayVec.{array_vec_len};
ghost use Rattle.station_frames.specs.Bytes.{FrameFits, encoding, lower, upper};

use crate::frame::{StationBytes, StationFrame};
use arrayvec::ArrayVec;
use wire_link::{Frame, encode as encode_lower};

/// Appends bytes.
fn put(bytes: &mut StationBytes, more: &[u8])
    requires { array_vec_len bytes.old + length more.now ≤ 104 }
    ensures items { bytes.new.items ≡ bytes.old.items ++ more.now }
{
    match bytes.try_extend_from_slice(more) {
        Ok(()) => {}
        Err(_) => unreachable!(),
    }
}

/// The upper 32 bits of a number.
fn upper_half(number: u64) -> u32
    ensures { result ≡ number / 2 ^ 32 }
{
    (number / 4_294_967_296) as u32
}

/// The lower 32 bits of a number.
fn lower_half(number: u64) -> u32
    ensures { result ≡ number % 2 ^ 32 }
{
    (number % 4_294_967_296) as u32
}

/// The upper half of the number of a frame.
fn upper_of(frame: &StationFrame) -> u32
    ensures value { result ≡ upper frame.now }
    ensures fits { upper frame.now < 2 ^ 32 }
{
    match frame {
        StationFrame::Data { number, .. } => upper_half(*number),
        StationFrame::Ack { number } => upper_half(*number),
    }
}

/// The frame of a wire with the lower half of the number.
fn lower_of(frame: &StationFrame) -> Frame
    ensures { result ≡ lower frame.now }
{
    match frame {
        StationFrame::Data { number, packet } => Frame::Data {
            number: lower_half(*number),
            packet: *packet,
        },
        StationFrame::Ack { number } => Frame::Ack {
            number: lower_half(*number),
        },
    }
}

/// The encoding of a frame of this run. Every frame has one.
pub fn encode(run: u32, frame: &StationFrame) -> StationBytes
    ensures items { result.items ≡ encoding run frame.now }
    ensures fits { FrameFits frame.now }
{
    let mut bytes = ArrayVec::new();
    put(&mut bytes, &run.to_be_bytes());
    put(&mut bytes, &upper_of(frame).to_be_bytes());
    let lower = encode_lower(&lower_of(frame));
    put(&mut bytes, lower.as_slice());
    bytes
}
