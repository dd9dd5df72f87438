//! The lines with frames that a station writes.
ghost use Rattle.std.specs.Prelude.{◌≡◌, [], ◌∷◌, ◌++◌, OnOk};
ghost use Rattle.record_writer.specs.RecordText.{led};
ghost use Rattle.station_text.specs.AnswerText.{frame_line, other_line, to_line};
ghost use Rattle.station_text.specs.Digits.{digits_of_bytes};

use crate::digits::push_digits;
use record_writer::push_number;
use station_frames::{StationFrame, encode};
use std::alloc::AllocError;

/// Appends a space and the digits of bytes.
fn push_digits_word(text: &mut Vec<u8>, bytes: &[u8]) -> Result<(), AllocError>
    ensures { OnOk result (text.new.items ≡ text.old.items ++ led (digits_of_bytes bytes.now ∷ [])) }
{
    text.extend_from_slice(b" ")?;
    push_digits(text, bytes)
}

/// Appends the line of bytes for a neighbour.
fn push_to(text: &mut Vec<u8>, to: u32, bytes: &[u8]) -> Result<(), AllocError>
    ensures { OnOk result (text.new.items ≡ text.old.items ++ to_line to bytes.now) }
{
    text.extend_from_slice(b"to")?;
    push_number(text, to)?;
    push_digits_word(text, bytes)?;
    text.extend_from_slice(b"\n")
}

/// Appends the line of a frame of this run for a neighbour. An error means out of memory.
pub fn push_frame(
    text: &mut Vec<u8>,
    to: u32,
    run: u32,
    frame: &StationFrame,
) -> Result<(), AllocError>
    ensures { OnOk result (text.new.items ≡ text.old.items ++ frame_line to run frame.now) }
{
    let bytes = encode(run, frame);
    push_to(text, to, bytes.as_slice())
}

/// Appends the line that reports a frame of another run, which is dropped. An error means out of memory.
pub fn push_other(text: &mut Vec<u8>, from: u32, run: u32) -> Result<(), AllocError>
    ensures { OnOk result (text.new.items ≡ text.old.items ++ other_line from run) }
{
    text.extend_from_slice(b"other")?;
    push_number(text, from)?;
    push_number(text, run)?;
    text.extend_from_slice(b"\n")
}
