//! Long series of drawn calls, on a pool and on a plain list.
ghost use Rattle.std.specs.Prelude.{◌≡◌, ◌<◌, IfSome, length};

use crate::calls::{Call, answer};
use cell_pool::CellPool;
use rand_core::utils::NextWord;
use rand_pcg::Pcg32;
use std::alloc::Global;

// The number of cells, the number of queues, an upper bound of the drawn numbers, and the number of calls.
const ROWS: &[(usize, usize, u32, u32)] = &[
    (0, 1, 4, 100),
    (0, 5, 4, 200),
    (1, 1, 4, 500),
    (1, 4, 4, 1000),
    (2, 2, 6, 2000),
    (10, 3, 20, 20_000),
    (100, 40, 20, 50_000),
    (1000, 7, 300, 100_000),
    (1000, 400, 10, 100_000),
];

// More pushes than other calls, so that each pool is full at times.
const CALLS: &[Call] = &[
    Call::PushBack,
    Call::PushBack,
    Call::PushBack,
    Call::PushFront,
    Call::PushFront,
    Call::PushFront,
    Call::PopFront,
    Call::PopFront,
    Call::Remove,
    Call::Double,
    Call::Get,
    Call::Position,
    Call::Len,
    Call::Free,
];

fn call_of(word: u32) -> Call {
    CALLS[word as usize % CALLS.len()]
}

// A pool as a plain list: the values of all queues, each with its queue, and the number of cells.
#[derive(Drop)]
struct Plain {
    values: Vec<(usize, u64)>,
    cells: usize,
}

// The number of values of a queue before the first one with this number, and whether there is such a value.
fn before(values: &[(usize, u64)], queue: usize, number: Option<u64>) -> (u64, bool) {
    let mut place = 0u64;
    for (at, value) in values {
        if *at == queue {
            if number == Some(*value) {
                return (place, true);
            }
            place = place.saturating_add(1);
        }
    }
    (place, false)
}

// The index of the value at this place of its queue.
fn index_of(values: &[(usize, u64)], queue: usize, place: u64) -> Option<usize>
    ensures { IfSome result (λ i. i < length values.now) }
{
    let mut left = place;
    for index in 0..values.len() {
        if values[index].0 == queue {
            if left == 0 {
                return Some(index);
            }
            left = left.saturating_sub(1);
        }
    }
    None
}

impl Plain {
    fn answer(&mut self, call: Call, queue: usize, number: u64) -> Option<u64> {
        let free = self.cells.saturating_sub(self.values.len());
        match call {
            Call::PushBack | Call::PushFront if free == 0 => Some(number),
            Call::PushBack => {
                let _ = self.values.push((queue, number));
                None
            }
            Call::PushFront => {
                let _ = self.values.insert(0, (queue, number));
                None
            }
            Call::Free => Some(free as u64),
            Call::Len => Some(before(&self.values, queue, None).0),
            Call::Position => match before(&self.values, queue, Some(number)) {
                (place, true) => Some(place),
                _ => None,
            },
            Call::PopFront => self.at(call, queue, 0),
            _ => self.at(call, queue, number),
        }
    }

    // The answer of a call for a value at a place.
    fn at(&mut self, call: Call, queue: usize, place: u64) -> Option<u64> {
        let index = index_of(&self.values, queue, place)?;
        let value = self.values[index].1;
        match call {
            Call::Get => {}
            Call::Double => self.values[index].1 = value.saturating_mul(2),
            _ => {
                self.values.remove(index);
            }
        }
        Some(value)
    }
}

// Whether the pool and the list have the same values in each queue.
fn is_same(pool: &mut CellPool<u64>, plain: &mut Plain, queues: usize) -> bool
    requires { length pool.old.lists ≡ queues }
{
    let mut each = true;
    for queue in 0..queues {
        let (count, _) = before(&plain.values, queue, None);
        for place in 0..=count {
            each &= answer(pool, Call::Get, queue, place) == plain.answer(Call::Get, queue, place);
        }
    }
    each
}

// Whether the pool answers each of the calls as the list does, and has the same values at the end.
fn is_answered(
    alloc: Global,
    draw: &mut Pcg32,
    (cells, queues, most, calls): (usize, usize, u32, u32),
) -> bool {
    if queues == 0 || most == 0 {
        return false;
    }
    let Ok(mut pool) = CellPool::make(alloc, cells, queues) else {
        return false;
    };
    let values = Vec::new(alloc);
    let mut plain = Plain { values, cells };
    let mut each = true;
    for _ in 0..calls {
        let call = call_of(draw.next_word());
        let queue = draw.next_word() as usize % queues;
        let number = (draw.next_word() % most) as u64;
        each &= answer(&mut pool, call, queue, number) == plain.answer(call, queue, number);
    }
    each & is_same(&mut pool, &mut plain, queues)
}

#[test]
fn a_pool_answers_as_plain_lists(rt: HostRuntime) {
    let mut draw = Pcg32::new(1, 1);
    let mut each = true;
    for row in ROWS {
        each &= is_answered(rt.alloc(), &mut draw, *row);
    }
    assert!(rt; each);
}
