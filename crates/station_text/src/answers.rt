//! The lines of a station's answers.
ghost use Rattle.std.specs.Prelude.{◌≡◌, [], ◌∷◌, ◌++◌, OnOk, decimal};
ghost use Rattle.station_text.specs.AnswerText.{count_words, end_text, full_line, last_line, log_line, rest_line};
ghost use Rattle.record_writer.specs.RecordText.{full_text, led};

use itoa::Buffer;
use record_writer::{push_effect, push_number, push_word};
use run_types::{Event, FullKind, Names, What};
use std::alloc::AllocError;

/// Appends the line of an event: the neighbour on whose link its step has put a packet, or `-`, and then the words of
/// the event and of its effect. An error means out of memory.
pub fn push_line(
    text: &mut Vec<u8>,
    names: &Names,
    event: Event,
    what: &What,
    put: Option<u32>,
) -> Result<(), AllocError>
    ensures { OnOk result (text.new.items ≡ text.old.items ++ log_line names.now event what.now put) }
{
    text.extend_from_slice(b"log")?;
    match put {
        Some(to) => push_number(text, to)?,
        None => push_word(text, b"-")?,
    }
    push_effect(text, names, event, what)?;
    text.extend_from_slice(b"\n")
}

/// The word of a limit.
fn full_word(kind: FullKind) -> &'static [u8]
    ensures { result.now ≡ full_text kind }
{
    match kind {
        FullKind::Heap => b"heap",
        FullKind::Frames => b"frames",
        FullKind::Cells => b"cells",
    }
}

/// Appends the line of a limit that a step would exceed. An error means out of memory.
pub fn push_full(text: &mut Vec<u8>, kind: FullKind) -> Result<(), AllocError>
    ensures { OnOk result (text.new.items ≡ text.old.items ++ full_line kind) }
{
    text.extend_from_slice(b"full")?;
    push_word(text, full_word(kind))?;
    text.extend_from_slice(b"\n")
}

/// Appends the line after turns: no object is ready, or all turns were made. An error means out of memory.
pub fn push_rest(text: &mut Vec<u8>, is_idle: bool) -> Result<(), AllocError>
    ensures { OnOk result (text.new.items ≡ text.old.items ++ rest_line is_idle) }
{
    if is_idle {
        text.extend_from_slice(b"idle\n")
    } else {
        text.extend_from_slice(b"ready\n")
    }
}

/// Appends a space and a number.
fn push_long(text: &mut Vec<u8>, number: u64) -> Result<(), AllocError>
    ensures { OnOk result (text.new.items ≡ text.old.items ++ led (decimal number ∷ [])) }
{
    let mut buffer = Buffer::new();
    push_word(text, buffer.format(number).as_bytes())
}

/// Appends the word, the neighbour and the count of each of these counts.
fn push_counts(text: &mut Vec<u8>, word: &[u8], counts: &[(u32, u64)]) -> Result<(), AllocError>
    ensures { OnOk result (text.new.items ≡ text.old.items ++ led (count_words word.now counts.now)) }
{
    for (node, count) in counts {
        push_word(text, word)?;
        push_number(text, *node)?;
        push_long(text, *count)?;
    }
    Ok(())
}

/// Appends the first two of the last words.
fn push_end(text: &mut Vec<u8>, is_idle: bool) -> Result<(), AllocError>
    ensures { OnOk result (text.new.items ≡ text.old.items ++ end_text is_idle) }
{
    if is_idle {
        text.extend_from_slice(b"end idle")
    } else {
        text.extend_from_slice(b"end ready")
    }
}

/// Appends the line of the last words: whether no object is ready; for each neighbour how many packets were put on the
/// link to it; and for each neighbour how many packets of the link from it were handed out. An error means out of
/// memory.
#[tactic(auto, using(crate::proofs::LastWords::last_more))]
pub fn push_last(
    text: &mut Vec<u8>,
    is_idle: bool,
    puts: &[(u32, u64)],
    handed: &[(u32, u64)],
) -> Result<(), AllocError>
    ensures { OnOk result (text.new.items ≡ text.old.items ++ last_line is_idle puts.now handed.now) }
{
    push_end(text, is_idle)?;
    push_counts(text, b"put", puts)?;
    push_counts(text, b"handed", handed)?;
    text.extend_from_slice(b"\n")
}
