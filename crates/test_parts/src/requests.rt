//! Test of the numbers of three slots, worked out by hand.
ghost use Rattle.std.specs.Prelude.{◌≡◌, ◌<◌, length};

use rendezvous_protocol::Outstanding;
use std::alloc::Global;

/// No number of these slots.
const NONE: u32 = u32::MAX;

/// A slot, whose number is settled if it has one, and else issued. Behind it is the state after it: a mark for each
/// slot, and the number of outstanding numbers. A slot with a number has the mark `n`. All other slots keep their
/// numbers.
const ROWS: &[(u32, &str)] = &[
    (1, "-n- 1"),
    (0, "nn- 2"),
    (1, "n-- 1"),
    (2, "n-n 2"),
    (1, "nnn 3"),
    (0, "-nn 2"),
    (2, "-n- 1"),
];

/// Settles the number of a slot, or issues one if it has none. Whether the number was that of the slot.
fn turn(out: &mut Outstanding, slot: u32) -> bool
    requires { slot < length out.old }
    ensures { length out.new ≡ length out.old }
{
    match out.number_of(slot) {
        Some(number) if out.is_out(number) => (out.settle(number) == slot) & !out.is_out(number),
        Some(_) => false,
        None => {
            let number = out.issue(slot);
            (number_in(out, slot) == number) & out.is_out(number)
        }
    }
}

/// The number of a slot. `NONE` if it has none.
fn number_in(out: &Outstanding, slot: u32) -> u32
    requires { slot < length out.now }
{
    out.number_of(slot).unwrap_or(NONE)
}

/// The mark of a slot with these numbers before and after a turn of it, or of another slot.
fn mark(before: u32, after: u32, is_turned: bool) -> &'static str {
    if is_turned == (before == after) {
        "?"
    } else if after == NONE {
        "-"
    } else {
        "n"
    }
}

/// Appends the state after a turn of a slot.
fn put_turn(told: &mut String, out: &mut Outstanding, slot: u32)
    requires slots { length out.old ≡ 3 }
    requires slot { slot < 3 }
    ensures { length out.new ≡ 3 }
{
    let (first, second, third) = (number_in(out, 0), number_in(out, 1), number_in(out, 2));
    let is_right = turn(out, slot);
    let _ = told.push_str(mark(first, number_in(out, 0), slot == 0));
    let _ = told.push_str(mark(second, number_in(out, 1), slot == 1));
    let _ = told.push_str(mark(third, number_in(out, 2), slot == 2));
    let mut count = 0_u32;
    for number in 0..9 {
        count = count.saturating_add(u32::from(out.is_out(number)));
    }
    let _ = write!(told, " {count}");
    if !is_right {
        let _ = told.push_str(" wrong");
    }
}

/// Appends the state after each turn, and the states that are wanted.
fn put_turns(told: &mut String, wanted: &mut String, alloc: Global) {
    if let Ok(mut out) = Outstanding::make(alloc, 3) {
        for (slot, state) in ROWS {
            put_turn(told, &mut out, *slot % 3);
            let _ = wanted.push_str(state);
        }
    }
}

#[test]
fn a_number_belongs_to_its_slot_until_it_is_settled(rt: HostRuntime) {
    let mut told = String::new(rt.alloc());
    let mut wanted = String::new(rt.alloc());
    put_turns(&mut told, &mut wanted, rt.alloc());
    assert!(rt; told.len() > 0 && told.as_str() == wanted.as_str());
}
