//! Writes a line.
ghost use Rattle.std.specs.Prelude.{◌≡◌, ℕ, ◌+◌, ◌<◌, ◌≤◌, [], ◌∷◌, ◌++◌, length, take, decimal, option_map, is_some, OnOk, OnErr};
ghost use Rattle.arrayvec.specs.ArrayVec.{array_vec_len};
ghost use Rattle.pool_outside.specs.Outside.{Rose, IsProperFront};
ghost use Rattle.run_types.specs.Asks.{asker_by, asker_of, is_asked};
ghost use Rattle.record_writer.specs.RecordText.{end_words, event_words, full_text, joined, led, line_text, line_words, wire_words};
ghost use Rattle.record_writer.specs.PlainTexts.{bare_text};
ghost use Rattle.record_writer.specs.SecondForm.{ask_words, form_text, line_text2};
ghost use Rattle.record_writer.specs.Writable.{AreShort, IsWritable, id_of_item, id_of_what};
ghost use Rattle.run_types.specs.declared.types.Line.TheVariants as R;

use crate::asked::{asker_of, is_asked};
use crate::labels::put_what;
use crate::parts::put_bare;
use crate::text::{LineText, put, put_digits, put_number, put_word};
use pool_outside::{Sink, WriteFault, write_all_of};
use run_types::{End, Event, FullKind, Item, Line, Names, What, WireAct};

/// Appends a wire event.
fn put_wire_act(text: &mut LineText, act: WireAct)
    requires { array_vec_len text.old ≤ 10 }
    ensures items { text.new.items ≡ text.old.items ++ led (wire_words act) }
    ensures size { array_vec_len text.new ≤ array_vec_len text.old + 10 }
{
    match act {
        WireAct::Send => put_word(text, b"send"),
        WireAct::Ack => put_word(text, b"ack"),
        WireAct::Lose => put_word(text, b"lose"),
        WireAct::Twice => put_word(text, b"twice"),
        WireAct::Late => put_word(text, b"late"),
        WireAct::LoseAck => {
            put_word(text, b"lose");
            put_word(text, b"ack");
        }
        WireAct::TwiceAck => {
            put_word(text, b"twice");
            put_word(text, b"ack");
        }
        WireAct::LateAck => {
            put_word(text, b"late");
            put_word(text, b"ack");
        }
    }
}

/// Appends a wire event and the ends of its link.
#[tactic(auto, using(crate::proofs::AppendedWords::led_more))]
fn put_wire(text: &mut LineText, act: WireAct, from: u32, to: u32)
    requires { array_vec_len text.old ≤ 10 }
    ensures items { text.new.items ≡ text.old.items ++ led (wire_words act ++ decimal from ∷ decimal to ∷ []) }
    ensures size { array_vec_len text.new ≤ array_vec_len text.old + 32 }
{
    put_wire_act(text, act);
    put_number(text, from);
    put_number(text, to);
}

/// Appends an event: a turn of a node, a move of a link's head, or a wire event.
fn put_event(text: &mut LineText, event: Event)
    requires { array_vec_len text.old ≤ 10 }
    ensures items { text.new.items ≡ text.old.items ++ led (event_words event) }
    ensures size { array_vec_len text.new ≤ array_vec_len text.old + 32 }
{
    match event {
        Event::Turn { node } => {
            put_word(text, b"turn");
            put_number(text, node);
        }
        Event::Link { from, to } => {
            put_word(text, b"link");
            put_number(text, from);
            put_number(text, to);
        }
        Event::Wire { act, from, to } => put_wire(text, act, from, to),
    }
}

fn full_text(kind: FullKind) -> &'static [u8]
    ensures text { result.now ≡ full_text kind }
    ensures short { length result.now ≤ 6 }
{
    match kind {
        FullKind::Heap => b"heap",
        FullKind::Frames => b"frames",
        FullKind::Cells => b"cells",
    }
}

/// Appends the end of a record.
fn put_end(text: &mut LineText, end: End)
    requires { text.old.items ≡ [] }
    ensures items { text.new.items ≡ joined (end_words end) }
    ensures size { array_vec_len text.new ≤ 40 }
{
    put(text, b"end");
    match end {
        End::Quiet { done } => {
            put_word(text, b"quiet");
            put_number(text, done);
        }
        End::Schedule { done } => {
            put_word(text, b"schedule");
            put_number(text, done);
        }
        End::Full { kind, node, done } => {
            put_word(text, b"full");
            put_word(text, full_text(kind));
            put_number(text, node);
            put_number(text, done);
        }
    }
}

/// The text of an event's line, without its line feed.
#[tactic(auto, using(crate::proofs::AppendedWords::led_more))]
fn put_shown(text: &mut LineText, number: u32, event: Event, what: &What, names: &Names)
    requires empty { text.old.items ≡ [] }
    requires writable { AreShort names.now (id_of_what what.now) }
    ensures items { text.new.items ≡ joined (line_words names.now (R.Event number event what.now)) }
    ensures size { array_vec_len text.new ≤ 501 }
{
    put_digits(text, number);
    put_event(text, event);
    put_what(text, names, what);
}

/// The text of a line, without its line feed.
fn put_line(text: &mut LineText, line: &Line, names: &Names)
    requires empty { text.old.items ≡ [] }
    requires writable { IsWritable names.now line.now }
    ensures items { text.new.items ≡ joined (line_words names.now line.now) }
    ensures size { array_vec_len text.new ≤ 501 }
{
    match line {
        Line::Event {
            number,
            event,
            what,
        } => put_shown(text, *number, *event, what, names),
        Line::End(end) => put_end(text, *end),
    }
}

/// Writes a line and its line feed in one piece of fewer than 512 bytes, without allocating. Requires a short name.
/// Returns an error only if the sink's count of faults rose. A proper prefix of the piece was then written.
pub fn write_line<K: Sink>(line: &Line, names: &Names, sink: &mut K) -> Result<(), WriteFault>
    requires { IsWritable names.now line.now }
    ensures whole { OnOk result (K.written sink.new ≡ option_map (λ w. w ++ line_text names.now line.now) (K.written sink.old)) }
    ensures front { OnErr result (IsProperFront (K.written sink.old) (line_text names.now line.now) (K.written sink.new)) }
    ensures failed { OnErr result (Rose (K.faults sink.old) (K.faults sink.new)) }
    ensures no_fault { OnOk result (K.faults sink.new ≡ K.faults sink.old) }
    ensures faults_stay_or_rise { K.faults sink.old ≤ K.faults sink.new }
    ensures short { length (line_text names.now line.now) < 512 }
{
    let mut text = LineText::new();
    put_line(&mut text, line, names);
    text.push(b'\n');
    write_all_of(sink, text.as_slice())
}

/// Appends a request number to a line that carries one.
fn put_ask(text: &mut LineText, asked: bool, ask: u32)
    requires { array_vec_len text.old ≤ 501 }
    ensures items { text.new.items ≡ text.old.items ++ led (ask_words asked ask) }
    ensures size { array_vec_len text.new ≤ array_vec_len text.old + 14 }
{
    if asked {
        put_word(text, b"by");
        put_number(text, ask);
    }
}

/// The text of a line in the second form, without its line feed.
#[tactic(auto, using(crate::proofs::AppendedWords::joined_more))]
fn put_line2(text: &mut LineText, line: &Line, ask: u32, names: &Names)
    requires empty { text.old.items ≡ [] }
    requires writable { IsWritable names.now line.now }
    ensures items { text.new.items ≡ joined (line_words names.now line.now ++ ask_words (is_asked line.now) ask) }
    ensures size { array_vec_len text.new ≤ 515 }
{
    put_line(text, line, names);
    put_ask(text, is_asked(line), ask);
}

/// Writes a line in the second form and its line feed, in one piece of fewer than 528 bytes, without allocating. `ask`
/// is the number of the request that it answers, if it answers one. Requires a short name. Returns an error only if the
/// sink's count of faults rose. A proper prefix of the piece was then written.
pub fn write_line2<K: Sink>(
    line: &Line,
    ask: u32,
    names: &Names,
    sink: &mut K,
) -> Result<(), WriteFault>
    requires { IsWritable names.now line.now }
    ensures whole { OnOk result (K.written sink.new ≡ option_map (λ w. w ++ line_text2 names.now line.now ask) (K.written sink.old)) }
    ensures front { OnErr result (IsProperFront (K.written sink.old) (line_text2 names.now line.now ask) (K.written sink.new)) }
    ensures failed { OnErr result (Rose (K.faults sink.old) (K.faults sink.new)) }
    ensures no_fault { OnOk result (K.faults sink.new ≡ K.faults sink.old) }
    ensures faults_stay_or_rise { K.faults sink.old ≤ K.faults sink.new }
    ensures short { length (line_text2 names.now line.now ask) < 528 }
{
    let mut text = LineText::new();
    put_line2(&mut text, line, ask, names);
    put(&mut text, b"\n");
    write_all_of(sink, text.as_slice())
}

/// The text of an event's line in the second form, without its line feed.
fn put_shown2(text: &mut LineText, number: u32, event: Event, what: &What, ask: u32, names: &Names)
    requires empty { text.old.items ≡ [] }
    requires writable { AreShort names.now (id_of_what what.now) }
    ensures items { text.new.items ≡ joined (line_words names.now (R.Event number event what.now) ++ ask_words (is_some (asker_of event what.now)) ask) }
    ensures size { array_vec_len text.new ≤ 515 }
{
    put_shown(text, number, event, what, names);
    put_ask(text, asker_of(event, what).is_some(), ask);
}

/// Writes the line of an event in the second form as `write_line2` does, without making a `Line` of its parts.
pub fn write_event2<K: Sink>(
    number: u32,
    event: Event,
    what: &What,
    ask: u32,
    names: &Names,
    sink: &mut K,
) -> Result<(), WriteFault>
    requires { IsWritable names.now (R.Event number event what.now) }
    ensures whole { OnOk result (K.written sink.new ≡ option_map (λ w. w ++ line_text2 names.now (R.Event number event what.now) ask) (K.written sink.old)) }
    ensures front { OnErr result (IsProperFront (K.written sink.old) (line_text2 names.now (R.Event number event what.now) ask) (K.written sink.new)) }
    ensures failed { OnErr result (Rose (K.faults sink.old) (K.faults sink.new)) }
    ensures no_fault { OnOk result (K.faults sink.new ≡ K.faults sink.old) }
    ensures faults_stay_or_rise { K.faults sink.old ≤ K.faults sink.new }
{
    let mut text = LineText::new();
    put_shown2(&mut text, number, event, what, ask, names);
    put(&mut text, b"\n");
    write_all_of(sink, text.as_slice())
}

/// Writes the first line of a record in the second form and its line feed, without allocating. Returns an error only if
/// the sink's count of faults rose. A proper prefix of the piece was then written.
pub fn write_form<K: Sink>(sink: &mut K) -> Result<(), WriteFault>
    ensures whole { OnOk result (K.written sink.new ≡ option_map (λ w. w ++ (form_text ++ 10 ∷ [])) (K.written sink.old)) }
    ensures front { OnErr result (IsProperFront (K.written sink.old) (form_text ++ 10 ∷ []) (K.written sink.new)) }
    ensures failed { OnErr result (Rose (K.faults sink.old) (K.faults sink.new)) }
    ensures no_fault { OnOk result (K.faults sink.new ≡ K.faults sink.old) }
    ensures faults_stay_or_rise { K.faults sink.old ≤ K.faults sink.new }
{
    write_all_of(sink, b"record 2\n")
}

/// Writes an item that an object wrote, a string without quotes, and a line feed, in one piece, without allocating.
/// Requires a text of at most 256 bytes. Returns an error only if the sink's count of faults rose. A proper prefix of
/// the piece was then written.
pub fn write_item<K: Sink>(item: Item, names: &Names, sink: &mut K) -> Result<(), WriteFault>
    requires { AreShort names.now (id_of_item item) }
    ensures whole { OnOk result (K.written sink.new ≡ option_map (λ w. w ++ (bare_text names.now item ++ 10 ∷ [])) (K.written sink.old)) }
    ensures front { OnErr result (IsProperFront (K.written sink.old) (bare_text names.now item ++ 10 ∷ []) (K.written sink.new)) }
    ensures failed { OnErr result (Rose (K.faults sink.old) (K.faults sink.new)) }
    ensures no_fault { OnOk result (K.faults sink.new ≡ K.faults sink.old) }
    ensures faults_stay_or_rise { K.faults sink.old ≤ K.faults sink.new }
{
    let mut text = LineText::new();
    put_bare(&mut text, names, item);
    put(&mut text, b"\n");
    write_all_of(sink, &text.as_slice()[1..])
}
