//! The lines of wires of a lossy schedule.
ghost use Rattle.std.specs.Prelude.{◌≡◌};
ghost use Rattle.schedule_reader.specs.Entries.{ack_act, counted_act, frame_act, wire, wire_of_four, wire_of_three};

use crate::entry::Entry;
use run_types::WireAct;
use text_scan::number;

/// A wire event that a line may repeat: `send` or `ack`.
fn counted_act(word: &[u8]) -> Option<WireAct>
    ensures { result ≡ counted_act word.now }
{
    if word == b"send".as_slice() {
        return Some(WireAct::Send);
    }
    if word == b"ack".as_slice() {
        return Some(WireAct::Ack);
    }
    None
}

/// An event on the first data frame.
fn frame_act(word: &[u8]) -> Option<WireAct>
    ensures { result ≡ frame_act word.now }
{
    if word == b"lose".as_slice() {
        return Some(WireAct::Lose);
    }
    if word == b"twice".as_slice() {
        return Some(WireAct::Twice);
    }
    if word == b"late".as_slice() {
        return Some(WireAct::Late);
    }
    None
}

/// An event on the first acknowledgement.
fn ack_act(word: &[u8]) -> Option<WireAct>
    ensures { result ≡ ack_act word.now }
{
    if word == b"lose".as_slice() {
        return Some(WireAct::LoseAck);
    }
    if word == b"twice".as_slice() {
        return Some(WireAct::TwiceAck);
    }
    if word == b"late".as_slice() {
        return Some(WireAct::LateAck);
    }
    None
}

/// A wire event between two nodes, with its count.
fn wire(act: Option<WireAct>, first: &[u8], second: &[u8], count: Option<u64>) -> Option<Entry>
    ensures { result ≡ wire act first.now second.now count }
{
    let act = act?;
    let from = number(first)?;
    let to = number(second)?;
    let count = count?;
    Some(Entry::Wire {
        act,
        from,
        to,
        count,
    })
}

/// The entry of a line with three words: one wire event between two nodes. None if they have another form.
pub fn wire_of_three(word: &[u8], first: &[u8], second: &[u8]) -> Option<Entry>
    ensures { result ≡ wire_of_three word.now first.now second.now }
{
    let act = counted_act(word).or(frame_act(word));
    wire(act, first, second, Some(1))
}

/// The entry of a line with four words: an event on an acknowledgement, or a wire event with a count. None if they have
/// another form.
pub fn wire_of_four(word: &[u8], first: &[u8], second: &[u8], third: &[u8]) -> Option<Entry>
    ensures { result ≡ wire_of_four word.now first.now second.now third.now }
{
    if first == b"ack".as_slice() {
        return wire(ack_act(word), second, third, Some(1));
    }
    wire(counted_act(word), first, second, number(third))
}
