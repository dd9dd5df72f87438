//! Steps of a wire, and its answers.
ghost use Rattle.std.specs.Prelude.{◌≡◌, ◌==◌, Some, None, if◌then◌else◌};

use rendezvous_protocol::Packet;
use wire_link::{Arrived, Sent, Side, Wire};

/// A step of a wire.
#[derive(Clone, Copy)]
pub enum Step {
    Wants,
    Send,
    Arrive,
    Ack,
    Lose(Side),
    Twice(Side),
    Late(Side),
}

/// The kind of an answer.
#[derive(Clone, Copy)]
pub enum Kind {
    Idle,
    Wants,
    Frame,
    Lost,
    Stale,
    Next,
    Acked,
    Late,
}

/// An answer with its number: that of a frame, or of `Next` the name in the delivered packet, or of `Idle` 0.
#[derive(Clone, Copy)]
pub struct Told(pub Kind, pub u32);

/// The answer of this kind, or `Idle` if there is no number.
pub fn of_kind(kind: Kind, number: Option<u32>) -> Told {
    match number {
        Some(number) => Told(kind, number),
        None => Told(Kind::Idle, 0),
    }
}

/// Whether two answers are the same.
pub fn is_same(left: Told, right: Told) -> bool {
    left.0 as u8 == right.0 as u8 && left.1 == right.1
}

/// The name in the packet with this number, from 0.
pub fn name_of(number: u32) -> u32 {
    number.saturating_add(70)
}

/// The packet with this number, from 0.
pub fn packet(number: u32) -> Packet {
    Packet::Created {
        number: 5,
        to: 65536,
        name: name_of(number),
    }
}

// The packet, if its number is the first that was never sent.
fn fresh(wire: &Wire, number: u32, packet: Packet) -> Option<Packet>
    ensures { result ≡ (if number == wire.now.sent then Some packet else None) }
{
    if number == wire.sent() {
        Some(packet)
    } else {
        None
    }
}

fn send(wire: &mut Wire, entered: u32) -> Told {
    let Some(number) = wire.wants(entered) else {
        return Told(Kind::Idle, 0);
    };
    if number >= entered || wire.sent() > entered {
        return Told(Kind::Idle, 0);
    }
    let fresh = fresh(wire, number, packet(number));
    match wire.send(number, fresh) {
        Sent::Frame => Told(Kind::Frame, number),
        Sent::Lost => Told(Kind::Lost, number),
    }
}

fn arrive(wire: &mut Wire) -> Told {
    match wire.arrive() {
        Arrived::Empty => Told(Kind::Idle, 0),
        Arrived::Stale { number } => Told(Kind::Stale, number),
        Arrived::Next { packet } => match packet {
            Packet::Created { name, .. } => Told(Kind::Next, name),
            _ => Told(Kind::Next, u32::MAX),
        },
    }
}

/// The answer of a wire to this step, after `entered` packets entered.
pub fn answer(wire: &mut Wire, entered: u32, step: Step) -> Told {
    match step {
        Step::Wants => of_kind(Kind::Wants, wire.wants(entered)),
        Step::Send => send(wire, entered),
        Step::Arrive => arrive(wire),
        Step::Ack => of_kind(Kind::Acked, wire.ack()),
        Step::Lose(side) => of_kind(Kind::Lost, wire.lose(side)),
        Step::Twice(side) => of_kind(Kind::Frame, wire.twice(side)),
        Step::Late(side) => of_kind(Kind::Late, wire.late(side)),
    }
}
