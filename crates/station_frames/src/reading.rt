//! Decoding of frames.
ghost use Rattle.std.specs.Prelude.{◌≡◌, ◌+◌, ◌*◌, ◌^◌, ◌≤◌, ◌<◌, length};
ghost use Rattle.station_frames.specs.Bytes.{decoded, joined, tail_frame};

use crate::frame::{StationBytes, StationFrame};
use arrayvec::ArrayVec;
use wire_link::{Frame, FrameBytes, decode as decode_lower};

/// The frame of a wire that these bytes encode.
fn wire_frame(bytes: &[u8]) -> Option<Frame>
    requires { length bytes.now ≤ 96 }
    ensures { result ≡ tail_frame bytes.now }
{
    let mut wire_bytes: FrameBytes = ArrayVec::new();
    match wire_bytes.try_extend_from_slice(bytes) {
        Ok(()) => decode_lower(&wire_bytes),
        Err(_) => unreachable!(),
    }
}

/// The number with these halves.
fn whole_number(upper: u32, lower: u32) -> u64
    ensures { result ≡ upper * 2 ^ 32 + lower }
{
    u64::from(upper) * 4_294_967_296 + u64::from(lower)
}

/// The frame with a number of this upper half.
fn whole_frame(upper: u32, frame: &Frame) -> StationFrame
    ensures { result ≡ joined upper frame.now }
{
    match frame {
        Frame::Data { number, packet } => StationFrame::Data {
            number: whole_number(upper, *number),
            packet: *packet,
        },
        Frame::Ack { number } => StationFrame::Ack {
            number: whole_number(upper, *number),
        },
    }
}

/// Decodes the number of a run and a frame. None exactly if the bytes are the encoding of no frame: `theorems` has the
/// law in both directions.
pub fn decode(bytes: &StationBytes) -> Option<(u32, StationFrame)>
    ensures { result ≡ decoded bytes.now.items }
{
    match bytes.as_slice() {
        [a, b, c, d, e, f, g, h, rest @ ..] => {
            let run = u32::from_be_bytes([*a, *b, *c, *d]);
            let upper = u32::from_be_bytes([*e, *f, *g, *h]);
            match wire_frame(rest) {
                Some(frame) => Some((run, whole_frame(upper, &frame))),
                None => None,
            }
        }
        _ => None,
    }
}
