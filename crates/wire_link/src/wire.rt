//! One link as a wire.
ghost use Rattle.std.specs.Prelude.{◌≡◌, ◌+◌, ◌^◌, ◌<◌, ◌≤◌, List, [], length, drop, None, Some, if◌then◌else◌, nat_lt, option_map};
ghost use Rattle.run_types.specs.declared.types.What.TheVariants as W;
ghost use Rattle.run_types.specs.Tables.{Each};
ghost use Rattle.mesh_semantics.specs.Wire.{capacity, coming_in, greater, push_within};
ghost use Rattle.mesh_semantics.specs.KeptWire.{Carries, empty_kept, kept_coming, kept_act, kept_hear, kept_send, kept_take, kept_wanted, with_fresh};
ghost use Rattle.rendezvous_protocol.specs.declared.packet.Packet.{Packet as AnyPacket};
ghost use Rattle.wire_link.specs.Bytes.{decoded, encoding};
ghost use Rattle.wire_link.specs.Wires.{IsData, IsWanted, arrived_of, data_in, frames_in, front_of, late_of, lose_of, told_of, twice_of};

use crate::frame::{Frame, FrameBytes};
use crate::reading::decode;
use crate::ring::{Frames, Ring};
use crate::sides::{first_ack, first_data, put_ack, put_data, take_ack, take_data};
use rendezvous_protocol::Packet;
use std::marker::Model;

/// A side of a wire: data frames go to the far end, and acknowledgements come back.
#[derive(Clone, Copy)]
pub enum Side {
    Data,
    Ack,
}

/// The outcome of sending: a frame is in transit, or it was lost since the wire is full.
#[derive(Clone, Copy)]
pub enum Sent {
    Frame,
    Lost,
}

/// The arrival at the far end: nothing, a frame that is not the next one, or the next packet.
#[derive(Clone, Copy)]
pub enum Arrived {
    Empty,
    Stale { number: u32 },
    Next { packet: Packet },
}

/// A link as a wire with the go-back-N protocol: counters, copies of the packets that were sent and not acknowledged,
/// and the frames in transit. There are at most 8 copies, and at most 16 frames on each side, stored as bytes. No call
/// allocates.
///
/// A wire stores no list of the packets that entered it; it *carries* lists (`Carries` of `mesh_semantics`). The
/// contracts speak of the stored state, and hold for every carried list. For the calls that change the wire,
/// `theorems::each_call_carries_what_was_carried` says so, with a clause each. The list is still carried, and the
/// report and the change are those of the definition. For the other calls, `a_kept_wire_does_what_its_wire_does` of
/// `mesh_semantics` says so. There, a wire that carries a list also carries every longer list that begins with it.
#[derive(Drop)]
pub struct Wire {
    handed: u32,
    acked: u32,
    next: u32,
    sent: u32,
    copies: Ring<Packet, 8>,
    frames: Frames,
    acks: Frames,
}

impl Model for Wire {
    ghost use Rattle.mesh_semantics.specs.KeptWire.{KeptWire as Kept};
    ghost use Rattle.rendezvous_protocol.specs.declared.packet.Packet.{Packet as OnePacket};

    ghost Value = { Kept OnePacket };

    ghost use Rattle.wire_link.specs.Wires.{view_of, IsWire};

    ghost view = { λ w. view_of w.handed w.acked w.next w.sent w.copies.items w.frames.items w.acks.items };

    ghost invariant = { λ w. IsWire w.handed w.acked w.next w.sent w.copies.items w.frames.items w.acks.items };
}

impl Wire {
    /// Makes a wire that no packet has entered. It carries the empty list (`a_kept_wire_does_what_its_wire_does`,
    /// `empty`).
    pub fn make() -> Wire
        ensures { result ≡ empty_kept }
    {
        Wire {
            handed: 0,
            acked: 0,
            next: 0,
            sent: 0,
            copies: Ring::make(),
            frames: Ring::make(),
            acks: Ring::make(),
        }
    }

    /// The number of acknowledged packets, which is the same for every carried list.
    pub fn acked(&self) -> u32
        ensures { result ≡ self.now.acked }
    {
        self.acked
    }

    /// The number of packets that the far end has handed out. They are the first ones of every carried list.
    pub fn handed(&self) -> u32
        ensures { result ≡ self.now.handed }
    {
        self.handed
    }

    /// The number of packets that were sent at least once, which is the same for every carried list.
    pub fn sent(&self) -> u32
        ensures { result ≡ self.now.sent }
    {
        self.sent
    }

    /// The number of the frame to send next, if `put` packets have entered. None exactly if all are acknowledged. The
    /// wire of every carried list of this length sends it next (`a_kept_wire_does_what_its_wire_does`, `wanted`). Some
    /// list is carried.
    pub fn wants(&self, put: u32) -> Option<u32>
        ensures wanted { result ≡ kept_wanted self.now put }
        ensures carries { (put : List AnyPacket) × Carries self.now put }
    {
        if self.acked == put {
            return None;
        }
        if (self.next as u64) < self.acked as u64 + 8 && self.next < put {
            Some(self.next)
        } else {
            Some(self.acked)
        }
    }

    /// The next arrival at the far end, as on the wire of every carried list (`a_kept_wire_does_what_its_wire_does`,
    /// `coming`).
    pub fn peek(&self) -> Arrived
        ensures { result ≡ arrived_of (kept_coming self.now) }
    {
        match self.frames.get(0) {
            None => Arrived::Empty,
            Some(first) => coming(decode(first), self.handed),
        }
    }

    /// Sends the frame of a number that some carried list wants. `fresh` is its packet exactly if it was never sent.
    /// Returns `Lost` exactly if 16 frames are in transit. Every list that wants the number, and has this packet, is
    /// carried after it (`each_call_carries_what_was_carried`, `send`).
    pub fn send(&mut self, number: u32, fresh: Option<Packet>) -> Sent
        requires narrow { number + 1 < 2 ^ 32 }
        requires wanted { IsWanted self.old number fresh }
        ensures { kept_send number fresh self.old ≡ (told_of number result, self.new) }
    {
        keep(&mut self.copies, fresh);
        self.next = number + 1;
        self.sent = later(self.sent, number + 1);
        let place = number - self.acked;
        match self.copies.get(place as usize) {
            Some(packet) => launch(&mut self.frames, number, packet),
            None => Sent::Lost,
        }
    }

    /// The first data frame comes to the far end. The next packet is handed out, and any other is dropped. If a frame
    /// came, the far end acknowledges the number of packets handed out, unless 16 acknowledgements are in transit.
    /// Every carried list is still carried (`each_call_carries_what_was_carried`, `arrive`).
    pub fn arrive(&mut self) -> Arrived
        ensures arrived { result ≡ arrived_of (kept_coming self.old) }
        ensures change { self.new ≡ kept_take self.old }
    {
        match take_data(&mut self.frames) {
            Some((number, packet)) => {
                if number == self.handed {
                    self.handed += 1;
                    put_ack(&mut self.acks, self.handed);
                    Arrived::Next { packet }
                } else {
                    put_ack(&mut self.acks, self.handed);
                    Arrived::Stale { number }
                }
            }
            None => Arrived::Empty,
        }
    }

    /// The first acknowledgement comes back, and the copies that it acknowledges are dropped. Returns its number, or
    /// None exactly if there is none. Every carried list is still carried (`each_call_carries_what_was_carried`,
    /// `ack`).
    pub fn ack(&mut self) -> Option<u32>
        ensures heard { option_map (λ n. (W.Acked n, self.new)) result ≡ kept_hear self.old }
        ensures none { result ≡ None → self.new ≡ self.old }
    {
        let number = take_ack(&mut self.acks)?;
        let acked = later(self.acked, number);
        forget(&mut self.copies, acked - self.acked);
        self.acked = acked;
        self.next = later(self.next, acked);
        Some(number)
    }

    /// The first frame of a side is lost. Returns its number, or None exactly if there is none. Every carried list is
    /// still carried (`each_call_carries_what_was_carried`, `lose`).
    pub fn lose(&mut self, side: Side) -> Option<u32>
        ensures lost { option_map (λ n. (W.Lost n, self.new)) result ≡ kept_act (lose_of side) [] self.old }
        ensures none { result ≡ None → self.new ≡ self.old }
    {
        match side {
            Side::Data => match take_data(&mut self.frames) {
                Some((number, _)) => Some(number),
                None => None,
            },
            Side::Ack => take_ack(&mut self.acks),
        }
    }

    /// A copy of the first frame of a side is appended to the side. Returns its number, or None exactly if there is
    /// none, or the side has 16. Every carried list is still carried (`each_call_carries_what_was_carried`, `twice`).
    pub fn twice(&mut self, side: Side) -> Option<u32>
        ensures doubled { option_map (λ n. (W.Frame n, self.new)) result ≡ kept_act (twice_of side) [] self.old }
        ensures none { result ≡ None → self.new ≡ self.old }
    {
        match side {
            Side::Data => match first_data(&self.frames) {
                Some((number, packet)) => {
                    if put_data(&mut self.frames, number, &packet) {
                        Some(number)
                    } else {
                        None
                    }
                }
                None => None,
            },
            Side::Ack => match first_ack(&self.acks) {
                Some(number) => {
                    if put_ack(&mut self.acks, number) {
                        Some(number)
                    } else {
                        None
                    }
                }
                None => None,
            },
        }
    }

    /// The encoding of the first frame of a side, at most 96 bytes. It is the same for every carried list. None exactly
    /// if there is no frame.
    pub fn front(&self, side: Side) -> Option<&FrameBytes>
        ensures bytes { option_map (λ b. b.now.items) result ≡ option_map encoding (front_of side self.now) }
        ensures read { option_map (λ b. decoded b.now.items) result ≡ option_map Some (front_of side self.now) }
    {
        match side {
            Side::Data => match self.frames.get(0) {
                None => None,
                Some(first) => Some(first),
            },
            Side::Ack => match self.acks.get(0) {
                None => None,
                Some(first) => Some(first),
            },
        }
    }

    /// The first frame of a side moves after the others. Returns its number, or None exactly if there is none. Every
    /// carried list is still carried (`each_call_carries_what_was_carried`, `late`).
    pub fn late(&mut self, side: Side) -> Option<u32>
        ensures late { option_map (λ n. (W.Late n, self.new)) result ≡ kept_act (late_of side) [] self.old }
        ensures none { result ≡ None → self.new ≡ self.old }
    {
        match side {
            Side::Data => match take_data(&mut self.frames) {
                Some((number, packet)) => {
                    put_data(&mut self.frames, number, &packet);
                    Some(number)
                }
                None => None,
            },
            Side::Ack => match take_ack(&mut self.acks) {
                Some(number) => {
                    put_ack(&mut self.acks, number);
                    Some(number)
                }
                None => None,
            },
        }
    }
}

/// The greater of two numbers.
fn later(a: u32, b: u32) -> u32
    ensures { result ≡ greater a b }
{
    if a < b { b } else { a }
}

/// Appends a data frame to its side. It is lost if the side is full.
fn launch(frames: &mut Frames, number: u32, packet: &Packet) -> Sent
    requires { Each IsData frames.old.items }
    ensures frames { frames_in frames.new.items ≡ push_within (number, packet.now) (frames_in frames.old.items) }
    ensures kept { Each IsData frames.new.items }
    ensures told { told_of number result ≡ (if nat_lt (length (frames_in frames.old.items)) capacity then W.Frame number else W.Lost number) }
{
    if put_data(frames, number, packet) {
        Sent::Frame
    } else {
        Sent::Lost
    }
}

/// Adds a copy, if there is one.
fn keep(copies: &mut Ring<Packet, 8>, fresh: Option<Packet>)
    requires { (p : AnyPacket) → fresh ≡ Some p → length copies.old.items < 8 }
    ensures { copies.new.items ≡ with_fresh fresh copies.old.items }
{
    if let Some(packet) = fresh {
        copies.push(packet);
    }
}

/// Drops the first `count` copies.
fn forget(copies: &mut Ring<Packet, 8>, count: u32)
    requires { count ≤ length copies.old.items }
    ensures { copies.new.items ≡ drop count copies.old.items }
{
    copies.skip(count as usize);
}

/// The arrival of a frame after `handed` packets were handed out.
fn coming(frame: Option<Frame>, handed: u32) -> Arrived
    ensures { result ≡ arrived_of (coming_in handed (data_in frame)) }
{
    match frame {
        Some(Frame::Data { number, packet }) => {
            if number == handed {
                Arrived::Next { packet }
            } else {
                Arrived::Stale { number }
            }
        }
        _ => Arrived::Empty,
    }
}
