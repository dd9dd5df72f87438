//! Test of two packets whose first frame arrives after the second one.
use crate::steps::{Kind, Step, Told, answer, is_same};
use wire_link::{Side, Wire};

const STEPS: &[(Step, Told)] = &[
    (Step::Wants, Told(Kind::Wants, 0)),
    (Step::Send, Told(Kind::Frame, 0)),
    (Step::Wants, Told(Kind::Wants, 1)),
    (Step::Send, Told(Kind::Frame, 1)),
    (Step::Late(Side::Data), Told(Kind::Late, 0)),
    (Step::Arrive, Told(Kind::Stale, 1)),
    (Step::Arrive, Told(Kind::Next, 70)),
    (Step::Ack, Told(Kind::Acked, 0)),
    (Step::Ack, Told(Kind::Acked, 1)),
    (Step::Wants, Told(Kind::Wants, 1)),
    (Step::Send, Told(Kind::Frame, 1)),
    (Step::Arrive, Told(Kind::Next, 71)),
    (Step::Ack, Told(Kind::Acked, 2)),
    (Step::Wants, Told(Kind::Idle, 0)),
];

#[test]
fn a_packet_that_falls_behind_is_handed_out_first(rt: HostRuntime) {
    let mut wire = Wire::make();
    let mut each = true;
    for (step, expected) in STEPS {
        each &= is_same(answer(&mut wire, 2, *step), *expected);
    }
    assert!(rt; each);
}
