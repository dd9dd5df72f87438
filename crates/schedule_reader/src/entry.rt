//! The entries of a schedule's lines.
ghost use Rattle.std.specs.Prelude.{◌≡◌, ◌+◌, ◌*◌, ◌<◌, ◌≤◌, length, IfOk, IfErr, IfNone, Some, None, true, false};
ghost use Rattle.text_scan.specs.Lines.{words};
ghost use Rattle.run_types.specs.Paths.{is_cut};
ghost use Rattle.schedule_reader.specs.Entries.{entry_of, entry_of_four, entry_of_three, entry_of_two, fault_of, fault_or_bad, has_link, is_count, is_lossy, link_fault, plain_entry_of, quantum_of};
ghost use Rattle.schedule_reader.specs.Entries.{wire_entry_of};
ghost use Rattle.schedule_reader.specs.Repeats.{IsCountedLine, counted_of};

use crate::event_runs::{Repeat, RunItem};
use crate::fault::ScheduleFault;
use crate::wire::{wire_of_four, wire_of_three};
use mesh_routing::are_neighbours;
use run_types::{Event, LinkId, WireAct};
use text_scan::{UpToFour, number, split_up_to_four};

/// The largest number of events of a schedule, and the largest count of a line.
pub const MOST_EVENTS: u64 = 2000000;

/// The entry of a line of events, with its numbers as written. The count is 1 if the line has none. Only lossy
/// schedules have `Wire`.
#[derive(Clone, Copy)]
pub enum Entry {
    Turn {
        node: u64,
        count: u64,
    },
    Link {
        from: u64,
        to: u64,
        count: u64,
    },
    Round {
        count: u64,
    },
    Wire {
        act: WireAct,
        from: u64,
        to: u64,
        count: u64,
    },
}

fn entry_of_two(word: &[u8], first: &[u8]) -> Option<Entry>
    ensures { result ≡ entry_of_two word.now first.now }
{
    if word == b"turn".as_slice() {
        let node = number(first)?;
        return Some(Entry::Turn { node, count: 1 });
    }
    if word == b"round".as_slice() {
        let count = number(first)?;
        return Some(Entry::Round { count });
    }
    None
}

fn entry_of_three(word: &[u8], first: &[u8], second: &[u8]) -> Option<Entry>
    ensures { result ≡ entry_of_three word.now first.now second.now }
{
    if word == b"turn".as_slice() {
        let node = number(first)?;
        let count = number(second)?;
        return Some(Entry::Turn { node, count });
    }
    if word == b"link".as_slice() {
        let from = number(first)?;
        let to = number(second)?;
        return Some(Entry::Link { from, to, count: 1 });
    }
    None
}

fn entry_of_four(word: &[u8], first: &[u8], second: &[u8], third: &[u8]) -> Option<Entry>
    ensures { result ≡ entry_of_four word.now first.now second.now third.now }
{
    if word == b"link".as_slice() {
        let from = number(first)?;
        let to = number(second)?;
        let count = number(third)?;
        return Some(Entry::Link { from, to, count });
    }
    None
}

fn plain_entry_in(line: &[u8]) -> Option<Entry>
    ensures { result ≡ plain_entry_of (words line.now) }
{
    match split_up_to_four(line) {
        UpToFour::Two(word, first) => entry_of_two(word, first),
        UpToFour::Three(word, first, second) => entry_of_three(word, first, second),
        UpToFour::Four(word, first, second, third) => entry_of_four(word, first, second, third),
        _ => None,
    }
}

fn wire_entry_in(line: &[u8]) -> Option<Entry>
    ensures { result ≡ wire_entry_of (words line.now) }
{
    match split_up_to_four(line) {
        UpToFour::Three(word, first, second) => wire_of_three(word, first, second),
        UpToFour::Four(word, first, second, third) => wire_of_four(word, first, second, third),
        _ => None,
    }
}

/// The entry of a line. Lines of wires are known only in a lossy schedule.
fn entry_in(lossy: bool, line: &[u8]) -> Option<Entry>
    ensures { result ≡ entry_of lossy (words line.now) }
{
    if let Some(entry) = plain_entry_in(line) {
        return Some(entry);
    }
    if lossy { wire_entry_in(line) } else { None }
}

/// The number of a `quantum` line, without a check of its range. None if it is no such line.
pub fn quantum_in(line: &[u8]) -> Option<u64>
    ensures { result ≡ quantum_of (words line.now) }
{
    match split_up_to_four(line) {
        UpToFour::Two(word, first) if word == b"quantum".as_slice() => number(first),
        _ => None,
    }
}

/// Reports whether this is the line `wires lossy`.
pub fn is_lossy(line: &[u8]) -> bool
    ensures { result ≡ is_lossy (words line.now) }
{
    match split_up_to_four(line) {
        UpToFour::Two(word, first) => word == b"wires".as_slice() && first == b"lossy".as_slice(),
        _ => false,
    }
}

/// Reports whether the link is cut.
fn is_cut(cuts: &[LinkId], from: u64, to: u64) -> bool
    ensures { result ≡ is_cut cuts.now from to }
{
    for cut in cuts {
        if u64::from(cut.from) == from && u64::from(cut.to) == to {
            return true;
        }
    }
    false
}

/// Reports whether a link leads from one node to the other, in a mesh of this width with these cut links. Requires a
/// positive width, and nodes below 64.
pub fn has_link(width: u64, cuts: &[LinkId], from: u64, to: u64) -> bool
    requires width { 1 ≤ width }
    requires from_small { from < 64 }
    requires to_small { to < 64 }
    ensures { result ≡ has_link width cuts.now from to }
{
    are_neighbours(width, from, to) && !is_cut(cuts, from, to)
}

fn is_count(count: u64) -> bool
    ensures { result ≡ is_count count }
{
    1 <= count && count <= MOST_EVENTS
}

/// A run item with its count, if the count is from 1 to 2,000,000.
fn counted(line: u32, count: u64, part: RunItem) -> Result<Repeat, ScheduleFault>
    ensures ok { IfOk result (λ c. (is_count count ≡ true) × (c ≡ record { count = count; part = part })) }
    ensures err { IfErr result (λ f. (is_count count ≡ false) × (f ≡ ScheduleFault.OutOfRange line)) }
{
    if !is_count(count) {
        return Err(ScheduleFault::OutOfRange { line });
    }
    Ok(Repeat {
        count: count as u32,
        part,
    })
}

/// The fault of `count` events on a link, in a mesh of this width and height with these cut links.
fn link_fault(
    width: u64,
    height: u64,
    cuts: &[LinkId],
    line: u32,
    from: u64,
    to: u64,
    count: u64,
) -> Option<ScheduleFault>
    requires width { (1 ≤ width) × (width ≤ 8) }
    requires height { (1 ≤ height) × (height ≤ 8) }
    ensures fault { result ≡ link_fault width height cuts.now line from to count }
    ensures none { IfNone result ((from < width * height) × (to < width * height) × (count ≤ 2000000)) }
{
    let nodes = width * height;
    if from >= nodes || to >= nodes {
        return Some(ScheduleFault::NoSuchNode { line });
    }
    if !has_link(width, cuts, from, to) {
        return Some(ScheduleFault::NoSuchLink { line });
    }
    if !is_count(count) {
        return Some(ScheduleFault::OutOfRange { line });
    }
    None
}

/// One event with its count. Requires a count of at most 2,000,000.
fn times(count: u64, event: Event) -> Repeat
    requires { count ≤ 2000000 }
    ensures { result ≡ record { count = count; part = RunItem.One event } }
{
    Repeat {
        count: count as u32,
        part: RunItem::One(event),
    }
}

/// The run item of an entry and its count, or the entry's fault, in a mesh of this width and height.
fn checked(
    width: u64,
    height: u64,
    cuts: &[LinkId],
    line: u32,
    entry: Entry,
) -> Result<Repeat, ScheduleFault>
    requires width { (1 ≤ width) × (width ≤ 8) }
    requires height { (1 ≤ height) × (height ≤ 8) }
    ensures ok { IfOk result (λ c. (fault_of width height cuts.now line entry ≡ None) × (c ≡ counted_of entry)) }
    ensures err { IfErr result (λ f. fault_of width height cuts.now line entry ≡ Some f) }
{
    match entry {
        Entry::Turn { node, count } => {
            if node >= width * height {
                return Err(ScheduleFault::NoSuchNode { line });
            }
            let event = Event::Turn { node: node as u32 };
            counted(line, count, RunItem::One(event))
        }
        Entry::Link { from, to, count } => {
            if let Some(fault) = link_fault(width, height, cuts, line, from, to, count) {
                return Err(fault);
            }
            let event = Event::Link {
                from: from as u32,
                to: to as u32,
            };
            Ok(times(count, event))
        }
        Entry::Round { count } => counted(line, count, RunItem::Round),
        Entry::Wire {
            act,
            from,
            to,
            count,
        } => {
            if let Some(fault) = link_fault(width, height, cuts, line, from, to, count) {
                return Err(fault);
            }
            let event = Event::Wire {
                act,
                from: from as u32,
                to: to as u32,
            };
            Ok(times(count, event))
        }
    }
}

/// The run item of a line of events and its count, or the fault of the line. Requires a width and a height of 1 to 8.
pub fn judge(
    width: u64,
    height: u64,
    cuts: &[LinkId],
    lossy: bool,
    number: u32,
    line: &[u8],
) -> Result<Repeat, ScheduleFault>
    requires width { (1 ≤ width) × (width ≤ 8) }
    requires height { (1 ≤ height) × (height ≤ 8) }
    ensures ok { IfOk result (λ c. IsCountedLine width height cuts.now lossy number (words line.now) c) }
    ensures err { IfErr result (λ f. fault_or_bad width height cuts.now number (entry_of lossy (words line.now)) ≡ Some f) }
{
    let Some(entry) = entry_in(lossy, line) else {
        return Err(ScheduleFault::BadLine { line: number });
    };
    checked(width, height, cuts, number, entry)
}
