//! Long series of drawn steps, on a wire and on plain lists.
use crate::plain::Plain;
use crate::steps::{Step, answer, is_same};
use rand_core::utils::NextWord;
use rand_pcg::Pcg32;
use wire_link::{Side, Wire};

// Each series has a number K and its steps: one of K words lets a packet enter.
const ROWS: &[(u32, u32)] = &[(2, 40_000), (5, 30_000), (30, 30_000)];

fn step_of(word: u32) -> Step {
    match word % 20 {
        0..6 => Step::Send,
        6..11 => Step::Arrive,
        11..14 => Step::Ack,
        14 => Step::Wants,
        15 => Step::Lose(Side::Data),
        16 => Step::Lose(Side::Ack),
        17 => Step::Twice(if word % 40 < 20 {
            Side::Data
        } else {
            Side::Ack
        }),
        18 => Step::Late(Side::Data),
        _ => Step::Late(Side::Ack),
    }
}

// The number of packets that were delivered in order. 0 if an answer of the wire was wrong.
fn handed_in(draw: &mut Pcg32, every: u32, steps: u32) -> u32 {
    let mut wire = Wire::make();
    let mut plain = Plain::make();
    for _ in 0..steps {
        let enters = draw.next_word().checked_rem(every) == Some(0);
        if enters && plain.entered.saturating_sub(plain.handed) < 30 {
            plain.entered = plain.entered.saturating_add(1);
        }
        let step = step_of(draw.next_word());
        if !is_same(answer(&mut wire, plain.entered, step), plain.answer(step)) {
            return 0;
        }
    }
    plain.handed
}

#[test]
fn a_wire_answers_as_plain_lists(rt: HostRuntime) {
    let mut draw = Pcg32::new(1, 1);
    let mut each = true;
    for (every, steps) in ROWS {
        each &= handed_in(&mut draw, *every, *steps) > 500;
    }
    assert!(rt; each);
}
