//! Appends lines of a record to a text, and what they write.
ghost use Rattle.std.specs.Prelude.{◌≡◌, ℕ, ◌++◌, ◌∷◌, [], OnOk, decimal};
ghost use Rattle.std.specs.Fmt.{signed_decimal};
ghost use Rattle.record_writer.specs.RecordText.{end_words, event_words, full_text, label_words, led, line_text, what_words, wire_words};
ghost use Rattle.run_types.specs.declared.types.Event.{Event as OneEvent};
ghost use Rattle.run_types.specs.declared.types.Line.TheVariants as R;
ghost use Rattle.record_writer.specs.WrittenText.{writes_of, written_text};

use crate::label_texts::{push_about, push_label, push_message, push_pair};
use crate::words::{push_name, push_number, push_object_name, push_value, push_word, text_of};
use itoa::Buffer;
use run_types::{End, Event, FullKind, Item, Label, Line, Names, Value, What, WireAct};
use std::alloc::AllocError;

/// Appends the words of a wire event.
fn push_wire_act(text: &mut Vec<u8>, act: WireAct) -> Result<(), AllocError>
    ensures { OnOk result (text.new.items ≡ text.old.items ++ led (wire_words act)) }
{
    match act {
        WireAct::Send => push_word(text, b"send"),
        WireAct::Ack => push_word(text, b"ack"),
        WireAct::Lose => push_word(text, b"lose"),
        WireAct::Twice => push_word(text, b"twice"),
        WireAct::Late => push_word(text, b"late"),
        WireAct::LoseAck => {
            push_word(text, b"lose")?;
            push_word(text, b"ack")
        }
        WireAct::TwiceAck => {
            push_word(text, b"twice")?;
            push_word(text, b"ack")
        }
        WireAct::LateAck => {
            push_word(text, b"late")?;
            push_word(text, b"ack")
        }
    }
}

/// Appends a wire event with its two nodes.
#[tactic(auto, using(crate::proofs::AppendedWords::led_more))]
fn push_wire(text: &mut Vec<u8>, act: WireAct, from: u32, to: u32) -> Result<(), AllocError>
    ensures { OnOk result (text.new.items ≡ text.old.items ++ led (wire_words act ++ decimal from ∷ decimal to ∷ [])) }
{
    push_wire_act(text, act)?;
    push_number(text, from)?;
    push_number(text, to)
}

/// Appends the event of a line.
fn push_event(text: &mut Vec<u8>, event: Event) -> Result<(), AllocError>
    ensures { OnOk result (text.new.items ≡ text.old.items ++ led (event_words event)) }
{
    match event {
        Event::Turn { node } => {
            push_word(text, b"turn")?;
            push_number(text, node)
        }
        Event::Link { from, to } => {
            push_word(text, b"link")?;
            push_number(text, from)?;
            push_number(text, to)
        }
        Event::Wire { act, from, to } => push_wire(text, act, from, to),
    }
}

/// Appends a keyword and a number.
fn push_numbered(text: &mut Vec<u8>, word: &[u8], number: u32) -> Result<(), AllocError>
    ensures { OnOk result (text.new.items ≡ text.old.items ++ led (word.now ∷ decimal number ∷ [])) }
{
    push_word(text, word)?;
    push_number(text, number)
}

/// Appends the content of a line.
fn push_what(text: &mut Vec<u8>, names: &Names, what: &What) -> Result<(), AllocError>
    ensures { OnOk result (text.new.items ≡ text.old.items ++ led (what_words names.now what.now)) }
{
    match what {
        What::Step { label, times } => push_label(text, names, label, *times as usize),
        What::PostCreate {
            object,
            class,
            node,
        } => {
            push_word(text, b"post")?;
            push_about(text, b"create", *object)?;
            push_name(text, names, *class)?;
            push_number(text, *node)
        }
        What::PostCall {
            object,
            receiver,
            method,
            args,
        } => {
            push_word(text, b"post")?;
            push_message(text, names, b"call", *object, *receiver, *method, args)
        }
        What::Arrive {
            object,
            receiver,
            method,
        } => {
            push_pair(text, b"arrive", *object, *receiver)?;
            push_name(text, names, *method)
        }
        What::Created { object, name } => push_pair(text, b"created", *object, *name),
        What::Result { object, value } => {
            push_about(text, b"result", *object)?;
            push_value(text, *value)
        }
        What::Pass => push_word(text, b"pass"),
        What::Idle => push_word(text, b"idle"),
        What::Frame { number } => push_numbered(text, b"frame", *number),
        What::Lost { number } => push_numbered(text, b"lost", *number),
        What::Stale { number } => push_numbered(text, b"stale", *number),
        What::Acked { number } => push_numbered(text, b"acked", *number),
        What::Late { number } => push_numbered(text, b"late", *number),
    }
}

fn full_text(kind: FullKind) -> &'static [u8]
    ensures { result.now ≡ full_text kind }
{
    match kind {
        FullKind::Heap => b"heap",
        FullKind::Frames => b"frames",
        FullKind::Cells => b"cells",
    }
}

/// Appends the words of an event and of its effect, each after a space. An error means out of memory.
#[tactic(auto, using(crate::proofs::AppendedWords::led_more))]
pub fn push_effect(
    text: &mut Vec<u8>,
    names: &Names,
    event: Event,
    what: &What,
) -> Result<(), AllocError>
    ensures { OnOk result (text.new.items ≡ text.old.items ++ led (event_words event ++ what_words names.now what.now)) }
{
    push_event(text, event)?;
    push_what(text, names, what)
}

/// Appends an end line with its line feed. An error means out of memory.
pub fn push_end(text: &mut Vec<u8>, names: &Names, end: End) -> Result<(), AllocError>
    ensures { OnOk result (text.new.items ≡ text.old.items ++ line_text names.now (R.End end)) }
{
    match end {
        End::Quiet { done } => {
            text.extend_from_slice(b"end quiet")?;
            push_number(text, done)?;
            text.extend_from_slice(b"\n")
        }
        End::Schedule { done } => {
            text.extend_from_slice(b"end schedule")?;
            push_number(text, done)?;
            text.extend_from_slice(b"\n")
        }
        End::Full { kind, node, done } => {
            text.extend_from_slice(b"end full")?;
            push_word(text, full_text(kind))?;
            push_number(text, node)?;
            push_number(text, done)?;
            text.extend_from_slice(b"\n")
        }
    }
}

/// Appends an event line.
fn push_event_line(
    text: &mut Vec<u8>,
    names: &Names,
    number: u32,
    event: Event,
    what: &What,
) -> Result<(), AllocError>
    ensures { OnOk result (text.new.items ≡ text.old.items ++ line_text names.now (R.Event number event what.now)) }
{
    let mut buffer = Buffer::new();
    text.extend_from_slice(buffer.format(number).as_bytes())?;
    push_effect(text, names, event, what)?;
    text.extend_from_slice(b"\n")
}

/// Appends a line of a record with its line feed, in the first form. An error means out of memory.
pub fn push_line(text: &mut Vec<u8>, names: &Names, line: &Line) -> Result<(), AllocError>
    ensures { OnOk result (text.new.items ≡ text.old.items ++ line_text names.now line.now) }
{
    match line {
        Line::Event {
            number,
            event,
            what,
        } => push_event_line(text, names, *number, *event, what),
        Line::End(end) => push_end(text, names, *end),
    }
}

/// Appends a written item and a line feed. A string has no quotes.
fn push_item_line(text: &mut Vec<u8>, names: &Names, item: Item) -> Result<(), AllocError>
    ensures { OnOk result (text.new.items ≡ text.old.items ++ written_text names.now item) }
{
    match item {
        Item::Value(Value::Int(number)) => {
            let mut buffer = Buffer::new();
            text.extend_from_slice(buffer.format(number).as_bytes())?;
        }
        Item::Value(Value::Bool(true)) => text.extend_from_slice(b"true")?,
        Item::Value(Value::Bool(false)) => text.extend_from_slice(b"false")?,
        Item::Value(Value::Ref(object)) => push_object_name(text, object)?,
        Item::Value(Value::Nil) => text.extend_from_slice(b"nil")?,
        Item::Text(id) => text.extend_from_slice(text_of(names, id))?,
    }
    text.extend_from_slice(b"\n")
}

/// Appends the item that an event writes and a line feed, and nothing for other events. A string has no quotes. An
/// error means out of memory.
pub fn push_written(text: &mut Vec<u8>, names: &Names, what: &What) -> Result<(), AllocError>
    ensures { (n : ℕ) (e : OneEvent) → OnOk result (text.new.items ≡ text.old.items ++ writes_of names.now (R.Event n e what.now)) }
{
    match what {
        What::Step {
            label: Label::Write { item, .. },
            ..
        } => push_item_line(text, names, *item),
        _ => Ok(()),
    }
}
