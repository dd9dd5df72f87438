//! Decoding of frames.
ghost use Rattle.std.specs.Prelude.{◌≡◌, [], option_map};
ghost use Rattle.wire_link.specs.Bytes.{data_frame, decoded, read_args, read_async, read_byte, read_create, read_created, read_integer, read_number, read_packet, read_request, read_result};
ghost use Rattle.wire_link.specs.Bytes.{read_truth, read_value};

use crate::frame::{Frame, FrameBytes};
use rendezvous_protocol::Packet;
use run_types::{Args, NameId, Value};

fn byte(bytes: &[u8]) -> Option<(u8, &[u8])>
    ensures { option_map (λ r. (r.0, r.1.now)) result ≡ read_byte bytes.now }
{
    match bytes {
        [first, rest @ ..] => Some((*first, rest)),
        [] => None,
    }
}

fn number(bytes: &[u8]) -> Option<(u32, &[u8])>
    ensures { option_map (λ r. (r.0, r.1.now)) result ≡ read_number bytes.now }
{
    match bytes {
        [a, b, c, d, rest @ ..] => Some((u32::from_be_bytes([*a, *b, *c, *d]), rest)),
        _ => None,
    }
}

fn integer(bytes: &[u8]) -> Option<(Value, &[u8])>
    ensures { option_map (λ r. (r.0, r.1.now)) result ≡ read_integer bytes.now }
{
    match bytes {
        [a, b, c, d, e, f, g, h, rest @ ..] => {
            let bits = u64::from_be_bytes([*a, *b, *c, *d, *e, *f, *g, *h]);
            Some((Value::Int(bits.cast_signed()), rest))
        }
        _ => None,
    }
}

fn truth(bytes: &[u8]) -> Option<(Value, &[u8])>
    ensures { option_map (λ r. (r.0, r.1.now)) result ≡ read_truth bytes.now }
{
    let (byte, rest) = byte(bytes)?;
    match byte {
        0 => Some((Value::Bool(false), rest)),
        1 => Some((Value::Bool(true), rest)),
        _ => None,
    }
}

fn value(bytes: &[u8]) -> Option<(Value, &[u8])>
    ensures { option_map (λ r. (r.0, r.1.now)) result ≡ read_value bytes.now }
{
    let (kind, rest) = byte(bytes)?;
    match kind {
        1 => integer(rest),
        2 => truth(rest),
        3 => {
            let (name, rest) = number(rest)?;
            Some((Value::Ref(name), rest))
        }
        4 => Some((Value::Nil, rest)),
        _ => None,
    }
}

/// Reads values into an empty `args`.
fn args<'a>(bytes: &'a [u8], args: &mut Args) -> Option<&'a [u8]>
    requires { args.old ≡ [] }
    ensures { option_map (λ r. (args.new, r.now)) result ≡ read_args bytes.now }
{
    let (count, rest) = byte(bytes)?;
    if count > 8 {
        return None;
    }
    let mut left = rest;
    for _ in 0..count {
        let (value, rest) = value(left)?;
        args.add(value);
        left = rest;
    }
    Some(left)
}

/// The frame with a request for a new object.
#[inline(never)]
fn create(place: u32, bytes: &[u8]) -> Option<Frame>
    ensures { result ≡ data_frame place (read_create bytes.now) }
{
    let (request, rest) = number(bytes)?;
    let (from, rest) = number(rest)?;
    let (node, rest) = number(rest)?;
    let (class, rest) = number(rest)?;
    if !rest.is_empty() {
        return None;
    }
    Some(Frame::Data {
        number: place,
        packet: Packet::Create {
            number: request,
            from,
            node,
            class: NameId(class),
        },
    })
}

/// The frame with the name of a new object.
#[inline(never)]
fn created(place: u32, bytes: &[u8]) -> Option<Frame>
    ensures { result ≡ data_frame place (read_created bytes.now) }
{
    let (request, rest) = number(bytes)?;
    let (to, rest) = number(rest)?;
    let (name, rest) = number(rest)?;
    if !rest.is_empty() {
        return None;
    }
    Some(Frame::Data {
        number: place,
        packet: Packet::Created {
            number: request,
            to,
            name,
        },
    })
}

/// The frame with a call.
#[inline(never)]
fn request(place: u32, bytes: &[u8]) -> Option<Frame>
    ensures { result ≡ data_frame place (read_request bytes.now) }
{
    let (request, rest) = number(bytes)?;
    let (from, rest) = number(rest)?;
    let (to, rest) = number(rest)?;
    let (method, rest) = number(rest)?;
    let mut values = Args::make();
    match args(rest, &mut values) {
        Some([]) => Some(Frame::Data {
            number: place,
            packet: Packet::Request {
                number: request,
                from,
                to,
                method: NameId(method),
                args: values,
            },
        }),
        _ => None,
    }
}

/// The frame with the value of a call.
#[inline(never)]
fn outcome(place: u32, bytes: &[u8]) -> Option<Frame>
    ensures { result ≡ data_frame place (read_result bytes.now) }
{
    let (request, rest) = number(bytes)?;
    let (to, rest) = number(rest)?;
    let (value, rest) = value(rest)?;
    if !rest.is_empty() {
        return None;
    }
    Some(Frame::Data {
        number: place,
        packet: Packet::Result {
            number: request,
            to,
            value,
        },
    })
}

/// The frame with an asynchronous message.
#[inline(never)]
fn message(place: u32, bytes: &[u8]) -> Option<Frame>
    ensures { result ≡ data_frame place (read_async bytes.now) }
{
    let (from, rest) = number(bytes)?;
    let (to, rest) = number(rest)?;
    let (method, rest) = number(rest)?;
    let mut values = Args::make();
    let rest = args(rest, &mut values)?;
    if !rest.is_empty() {
        return None;
    }
    Some(Frame::Data {
        number: place,
        packet: Packet::Async {
            from,
            to,
            method: NameId(method),
            args: values,
        },
    })
}

/// The data frame with this number and the packet that the bytes encode.
fn data(place: u32, bytes: &[u8]) -> Option<Frame>
    ensures { result ≡ data_frame place (read_packet bytes.now) }
{
    let (kind, rest) = byte(bytes)?;
    match kind {
        1 => create(place, rest),
        2 => created(place, rest),
        3 => request(place, rest),
        4 => outcome(place, rest),
        5 => message(place, rest),
        _ => None,
    }
}

/// Decodes a frame. None exactly if the bytes are the encoding of no frame: `theorems` has the law in both directions.
pub fn decode(bytes: &FrameBytes) -> Option<Frame>
    ensures { result ≡ decoded bytes.now.items }
{
    let (kind, rest) = byte(bytes.as_slice())?;
    match kind {
        1 => {
            let (place, rest) = number(rest)?;
            data(place, rest)
        }
        2 => {
            let (number, rest) = number(rest)?;
            if rest.is_empty() {
                Some(Frame::Ack { number })
            } else {
                None
            }
        }
        _ => None,
    }
}
