//! The lines of a record, event lines led by the word `event`.
ghost use Rattle.std.specs.Prelude.{◌≡◌, ◌++◌, OnOk};
ghost use Rattle.run_types.specs.declared.types.Line.TheVariants as R;
ghost use Rattle.term_text.specs.Watched.{told_line};

use record_writer::{push_effect, push_end, push_number};
use run_types::{Event, Line, Names, What};
use std::alloc::AllocError;

/// Appends an event line after the word `event`.
fn push_event_line(
    text: &mut Vec<u8>,
    names: &Names,
    number: u32,
    event: Event,
    what: &What,
) -> Result<(), AllocError>
    ensures { OnOk result (text.new.items ≡ text.old.items ++ told_line names.now (R.Event number event what.now)) }
{
    text.extend_from_slice(b"event")?;
    push_number(text, number)?;
    push_effect(text, names, event, what)?;
    text.extend_from_slice(b"\n")
}

/// Appends a line of a record, an event line after the word `event`. An error means out of memory.
pub fn push_line(text: &mut Vec<u8>, names: &Names, line: &Line) -> Result<(), AllocError>
    ensures { OnOk result (text.new.items ≡ text.old.items ++ told_line names.now line.now) }
{
    match line {
        Line::Event {
            number,
            event,
            what,
        } => push_event_line(text, names, *number, *event, what),
        Line::End(end) => push_end(text, names, *end),
    }
}
