//! The binary form of what a station reads and writes: pieces, each with its length before it.
ghost use Rattle.std.specs.Prelude.{◌≡◌, ◌<◌, ◌-◌, ◌^◌, ◌∷◌, ◌++◌, length, OnOk};
ghost use Rattle.std.specs.Option.{option_map};
ghost use Rattle.station_text.specs.Pieces.{first_piece, frame_piece, from_piece, number_piece, piece_bytes, piece_command, short_frame};

use crate::commands::{Command, CommandFault};
use arrayvec::ArrayVec;
use station_frames::{StationBytes, StationFrame, decode, encode};
use std::alloc::AllocError;

/// The kind of a piece with a line, and of a piece with a frame.
pub const LINE: u8 = 1;

pub const FRAME: u8 = 2;

/// The first piece of a text, and the text after it.
#[derive(Clone, Copy)]
pub struct Piece<'a> {
    pub bytes: &'a [u8],
    pub rest: &'a [u8],
}

/// Cuts a text after its first piece. None if the piece is not whole yet.
pub fn first_piece(text: &[u8]) -> Option<Piece<'_>>
    ensures { option_map (λ p. (p.bytes.now, p.rest.now)) result ≡ first_piece text.now }
{
    match text {
        [a, b, c, d, rest @ ..] => {
            let size = u32::from_be_bytes([*a, *b, *c, *d]) as usize;
            if size > rest.len() {
                return None;
            }
            Some(Piece {
                bytes: &rest[..size],
                rest: &rest[size..],
            })
        }
        _ => None,
    }
}

/// The number of four bytes.
fn number_piece(bytes: &[u8]) -> Result<u32, CommandFault>
    ensures { result ≡ number_piece bytes.now }
{
    match bytes {
        [a, b, c, d] => Ok(u32::from_be_bytes([*a, *b, *c, *d])),
        _ => Err(CommandFault::Number),
    }
}

/// The run and the frame that bytes encode.
fn short_frame(bytes: &[u8]) -> Result<(u32, StationFrame), CommandFault>
    ensures { result ≡ short_frame bytes.now }
{
    if bytes.len() > 104 {
        return Err(CommandFault::Frame);
    }
    let mut frame: StationBytes = ArrayVec::new();
    match frame.try_extend_from_slice(bytes) {
        Ok(()) => {}
        Err(_) => unreachable!(),
    }
    match decode(&frame) {
        Some(read) => Ok(read),
        None => Err(CommandFault::Frame),
    }
}

/// The command with a frame of these bytes.
fn from_piece(bytes: &[u8]) -> Result<Command, CommandFault>
    ensures { result ≡ from_piece bytes.now }
{
    match bytes {
        [a, b, c, d, rest @ ..] => {
            let from = u32::from_be_bytes([*a, *b, *c, *d]);
            match short_frame(rest) {
                Ok((run, frame)) => Ok(Command::From { from, run, frame }),
                Err(fault) => Err(fault),
            }
        }
        _ => Err(CommandFault::Number),
    }
}

/// The command of a piece, or its first fault.
pub fn piece_command(bytes: &[u8]) -> Result<Command, CommandFault>
    ensures { result ≡ piece_command bytes.now }
{
    let [kind, rest @ ..] = bytes else {
        return Err(CommandFault::Form);
    };
    match *kind {
        1 => match number_piece(rest) {
            Ok(count) => Ok(Command::Turns { count }),
            Err(fault) => Err(fault),
        },
        2 => match number_piece(rest) {
            Ok(to) => Ok(Command::Again { to }),
            Err(fault) => Err(fault),
        },
        3 => from_piece(rest),
        4 if rest.is_empty() => Ok(Command::Stop),
        _ => Err(CommandFault::Form),
    }
}

/// Appends a piece of this kind. Requires fewer than 2^32 - 1 bytes. An error means out of memory.
pub fn push_piece(text: &mut Vec<u8>, kind: u8, bytes: &[u8]) -> Result<(), AllocError>
    requires { length bytes.now < 2 ^ 32 - 1 }
    ensures { OnOk result (text.new.items ≡ text.old.items ++ piece_bytes (kind ∷ bytes.now)) }
{
    let size = bytes.len() as u32 + 1;
    text.extend_from_slice(&size.to_be_bytes())?;
    text.extend_from_slice(&[kind])?;
    text.extend_from_slice(bytes)
}

/// Appends the piece of a frame of this run for a neighbour. An error means out of memory.
pub fn push_frame_piece(
    text: &mut Vec<u8>,
    to: u32,
    run: u32,
    frame: &StationFrame,
) -> Result<(), AllocError>
    ensures { OnOk result (text.new.items ≡ text.old.items ++ piece_bytes (frame_piece to run frame.now)) }
{
    let mut bytes: ArrayVec<u8, 108> = ArrayVec::new();
    match bytes.try_extend_from_slice(&to.to_be_bytes()) {
        Ok(()) => {}
        Err(_) => unreachable!(),
    }
    match bytes.try_extend_from_slice(encode(run, frame).as_slice()) {
        Ok(()) => {}
        Err(_) => unreachable!(),
    }
    push_piece(text, FRAME, bytes.as_slice())
}
