//! A wire as plain lists. Packets have numbers from 0 in their order, and a frame is the number of its packet.
use crate::steps::{Kind, Step, Told, name_of, of_kind};
use arrayvec::ArrayVec;
use wire_link::Side;

// At most sixteen frames are under way on a side.
type Frames = ArrayVec<u32, 16>;

/// The wire: the numbers of the packets that entered, were handed out and were acknowledged, the number of the frame to
/// send next, and the frames on each side.
#[derive(Drop)]
pub struct Plain {
    pub entered: u32,
    pub handed: u32,
    acked: u32,
    next: u32,
    frames: Frames,
    acks: Frames,
}

// Appends a number and returns it, if there is one and room for it. Otherwise `Idle`.
fn put(frames: &mut Frames, kind: Kind, number: Option<u32>) -> Told {
    match number {
        Some(number) if frames.try_push(number).is_ok() => Told(kind, number),
        _ => Told(Kind::Idle, 0),
    }
}

impl Plain {
    /// Makes a wire that no packet has entered.
    pub fn make() -> Plain {
        Plain {
            entered: 0,
            handed: 0,
            acked: 0,
            next: 0,
            frames: ArrayVec::new(),
            acks: ArrayVec::new(),
        }
    }

    fn wants(&self) -> Option<u32> {
        if self.acked == self.entered {
            None
        } else if self.next < self.entered && self.next < self.acked.saturating_add(8) {
            Some(self.next)
        } else {
            Some(self.acked)
        }
    }

    fn send(&mut self) -> Told {
        let Some(number) = self.wants() else {
            return Told(Kind::Idle, 0);
        };
        self.next = number.saturating_add(1);
        if self.frames.try_push(number).is_ok() {
            Told(Kind::Frame, number)
        } else {
            Told(Kind::Lost, number)
        }
    }

    fn arrive(&mut self) -> Told {
        let Some(number) = self.frames.pop_at(0) else {
            return Told(Kind::Idle, 0);
        };
        if number != self.handed {
            put(&mut self.acks, Kind::Acked, Some(self.handed));
            return Told(Kind::Stale, number);
        }
        self.handed = number.saturating_add(1);
        put(&mut self.acks, Kind::Acked, Some(self.handed));
        Told(Kind::Next, name_of(number))
    }

    fn ack(&mut self) -> Told {
        let Some(number) = self.acks.pop_at(0) else {
            return Told(Kind::Idle, 0);
        };
        self.acked = self.acked.max(number);
        self.next = self.next.max(self.acked);
        Told(Kind::Acked, number)
    }

    fn frames_of(&mut self, side: Side) -> &mut Frames {
        match side {
            Side::Data => &mut self.frames,
            Side::Ack => &mut self.acks,
        }
    }

    /// The answer of the wire to this step.
    pub fn answer(&mut self, step: Step) -> Told {
        match step {
            Step::Wants => of_kind(Kind::Wants, self.wants()),
            Step::Send => self.send(),
            Step::Arrive => self.arrive(),
            Step::Ack => self.ack(),
            Step::Lose(side) => of_kind(Kind::Lost, self.frames_of(side).pop_at(0)),
            Step::Twice(side) => {
                let frames = self.frames_of(side);
                let first = frames.as_slice().first().copied();
                put(frames, Kind::Frame, first)
            }
            Step::Late(side) => {
                let frames = self.frames_of(side);
                let first = frames.pop_at(0);
                put(frames, Kind::Late, first)
            }
        }
    }
}
