//! Parses a line of a record.
ghost use Rattle.std.specs.Prelude.{◌≡◌, ◌∷◌, None, option_map};
ghost use Rattle.record_parser.specs.Fields.{fields};
ghost use Rattle.record_parser.specs.Lines.{end_of, end_of_two, event_of, full_of, happened, kind_of, line_of, link_from, link_of, side_of, turn_of, wire_event, wire_from, wire_of};
ghost use Rattle.record_parser.specs.Shown.{what_of};
ghost use Rattle.record_parser.specs.ReadLineView.{told};

use crate::fields::{FirstFields, cut, first_fields};
use crate::shown::what_in;
use crate::spelled::count;
use run_types::{End, Event, FullKind, Line, WireAct};

/// A parsed line. It has 0 as the number of its name. `text` is the text of the name, if the line has one.
#[derive(Clone, Copy)]
pub struct ReadLine<'a> {
    pub line: Line,
    pub text: Option<&'a [u8]>,
}

fn end_line(end: End) -> ReadLine<'static>
    ensures { told result ≡ record { line = Line.End end; text = None } }
{
    ReadLine {
        line: Line::End(end),
        text: None,
    }
}

fn end_of_two(how: &[u8], number: &[u8]) -> Option<ReadLine<'static>>
    ensures { option_map told result ≡ end_of_two how.now number.now }
{
    let done = count(number)?;
    if how == b"quiet".as_slice() {
        return Some(end_line(End::Quiet { done }));
    }
    if how == b"schedule".as_slice() {
        return Some(end_line(End::Schedule { done }));
    }
    None
}

fn kind_of(word: &[u8]) -> Option<FullKind>
    ensures { result ≡ kind_of word.now }
{
    if word == b"heap".as_slice() {
        return Some(FullKind::Heap);
    }
    if word == b"frames".as_slice() {
        return Some(FullKind::Frames);
    }
    if word == b"cells".as_slice() {
        return Some(FullKind::Cells);
    }
    None
}

fn full_of(kind: &[u8], node: &[u8], number: &[u8]) -> Option<ReadLine<'static>>
    ensures { option_map told result ≡ full_of kind.now node.now number.now }
{
    let kind = kind_of(kind)?;
    let node = count(node)?;
    let done = count(number)?;
    Some(end_line(End::Full { kind, node, done }))
}

/// The end line of a full node, which has exactly four words after `end`.
fn full_in(full: &[u8], kind: &[u8], node: &[u8], left: &[u8]) -> Option<ReadLine<'static>>
    ensures { option_map told result ≡ end_of (full.now ∷ kind.now ∷ node.now ∷ fields left.now) }
{
    let last = cut(b' ', left);
    match last.rest {
        Some(_) => None,
        None => {
            if full == b"full".as_slice() {
                return full_of(kind, node, last.first);
            }
            None
        }
    }
}

fn end_in(words: &[u8]) -> Option<ReadLine<'static>>
    ensures { option_map told result ≡ end_of (fields words.now) }
{
    match first_fields(words) {
        FirstFields::One(_) => None,
        FirstFields::Two(how, number) => end_of_two(how, number),
        FirstFields::Three(_, _, _) => None,
        FirstFields::More(full, kind, node, left) => full_in(full, kind, node, left),
    }
}

fn happened<'a>(number: u32, event: Event, words: &'a [u8]) -> Option<ReadLine<'a>>
    ensures { option_map told result ≡ happened number event (what_of (fields words.now)) }
{
    match what_in(words) {
        None => None,
        Some(read) => Some(ReadLine {
            line: Line::Event {
                number,
                event,
                what: read.what,
            },
            text: read.text,
        }),
    }
}

fn turn_in(number: u32, words: &[u8]) -> Option<ReadLine<'_>>
    ensures { option_map told result ≡ turn_of number (fields words.now) }
{
    let next = cut(b' ', words);
    let node = count(next.first)?;
    let left = next.rest?;
    happened(number, Event::Turn { node }, left)
}

fn link_from(number: u32, from: u32, words: &[u8]) -> Option<ReadLine<'_>>
    ensures { option_map told result ≡ link_from number from (fields words.now) }
{
    let next = cut(b' ', words);
    let to = count(next.first)?;
    let left = next.rest?;
    happened(number, Event::Link { from, to }, left)
}

fn link_in(number: u32, words: &[u8]) -> Option<ReadLine<'_>>
    ensures { option_map told result ≡ link_of number (fields words.now) }
{
    let next = cut(b' ', words);
    let from = count(next.first)?;
    let left = next.rest?;
    link_from(number, from, left)
}

fn wire_from(number: u32, act: WireAct, from: u32, words: &[u8]) -> Option<ReadLine<'_>>
    ensures { option_map told result ≡ wire_from number act from (fields words.now) }
{
    let next = cut(b' ', words);
    let to = count(next.first)?;
    let left = next.rest?;
    happened(number, Event::Wire { act, from, to }, left)
}

fn wire_in(number: u32, act: WireAct, words: &[u8]) -> Option<ReadLine<'_>>
    ensures { option_map told result ≡ wire_of number act (fields words.now) }
{
    let next = cut(b' ', words);
    let from = count(next.first)?;
    let left = next.rest?;
    wire_from(number, act, from, left)
}

/// A wire event on the data frames, or on the acknowledgements if the next word is `ack`.
fn side_in(number: u32, act: WireAct, other: WireAct, words: &[u8]) -> Option<ReadLine<'_>>
    ensures { option_map told result ≡ side_of number act other (fields words.now) }
{
    let next = cut(b' ', words);
    if next.first == b"ack".as_slice() {
        let left = next.rest?;
        return wire_in(number, other, left);
    }
    wire_in(number, act, words)
}

fn wire_event<'a>(number: u32, word: &[u8], words: &'a [u8]) -> Option<ReadLine<'a>>
    ensures { option_map told result ≡ wire_event number word.now (fields words.now) }
{
    if word == b"send".as_slice() {
        return wire_in(number, WireAct::Send, words);
    }
    if word == b"ack".as_slice() {
        return wire_in(number, WireAct::Ack, words);
    }
    if word == b"lose".as_slice() {
        return side_in(number, WireAct::Lose, WireAct::LoseAck, words);
    }
    if word == b"twice".as_slice() {
        return side_in(number, WireAct::Twice, WireAct::TwiceAck, words);
    }
    if word == b"late".as_slice() {
        return side_in(number, WireAct::Late, WireAct::LateAck, words);
    }
    None
}

fn event_in(number: u32, words: &[u8]) -> Option<ReadLine<'_>>
    ensures { option_map told result ≡ event_of number (fields words.now) }
{
    let next = cut(b' ', words);
    let left = next.rest?;
    if next.first == b"turn".as_slice() {
        return turn_in(number, left);
    }
    if next.first == b"link".as_slice() {
        return link_in(number, left);
    }
    wire_event(number, next.first, left)
}

/// Parses a line without its line feed. None exactly if it has no form of a record's line.
pub fn line_in(line: &[u8]) -> Option<ReadLine<'_>>
    ensures { option_map told result ≡ line_of (fields line.now) }
{
    let next = cut(b' ', line);
    let left = next.rest?;
    if next.first == b"end".as_slice() {
        return end_in(left);
    }
    let number = count(next.first)?;
    event_in(number, left)
}
