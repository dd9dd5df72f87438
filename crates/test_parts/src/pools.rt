//! Tests of pools of few cells, with answers that were worked out by hand.
use crate::calls::{Call, answer};
use cell_pool::CellPool;
use std::alloc::Global;

// A call, its queue, its number, and its answer.
type Row = (Call, usize, u64, Option<u64>);

const THREE_CELLS: &[Row] = &[
    (Call::PushBack, 0, 1, None),
    (Call::PushBack, 0, 2, None),
    (Call::PushFront, 0, 3, None),
    (Call::Len, 0, 0, Some(3)),
    (Call::Get, 0, 0, Some(3)),
    (Call::Get, 0, 1, Some(1)),
    (Call::Get, 0, 2, Some(2)),
    (Call::Len, 1, 0, Some(0)),
    (Call::PushFront, 1, 4, Some(4)),
    (Call::Remove, 0, 1, Some(1)),
    (Call::PushBack, 1, 4, None),
    (Call::PopFront, 0, 0, Some(3)),
    (Call::Len, 0, 0, Some(1)),
    (Call::Get, 0, 0, Some(2)),
    (Call::Len, 1, 0, Some(1)),
    (Call::Get, 1, 0, Some(4)),
    (Call::Free, 0, 0, Some(1)),
];

const TWO_CELLS: &[Row] = &[
    (Call::PushBack, 0, 7, None),
    (Call::PushBack, 0, 8, None),
    (Call::PushBack, 1, 9, Some(9)),
    (Call::Remove, 0, 0, Some(7)),
    (Call::Len, 0, 0, Some(1)),
    (Call::Get, 0, 0, Some(8)),
    (Call::Len, 1, 0, Some(0)),
    (Call::Free, 0, 0, Some(1)),
];

const NO_CELL: &[Row] = &[
    (Call::PushBack, 0, 1, Some(1)),
    (Call::PushFront, 1, 2, Some(2)),
    (Call::PopFront, 0, 0, None),
    (Call::Remove, 1, 0, None),
    (Call::Position, 0, 1, None),
    (Call::Len, 0, 0, Some(0)),
    (Call::Len, 1, 0, Some(0)),
    (Call::Free, 0, 0, Some(0)),
];

const ONE_CELL: &[Row] = &[
    (Call::PopFront, 1, 0, None),
    (Call::PushFront, 1, 5, None),
    (Call::PushFront, 1, 6, Some(6)),
    (Call::PushBack, 0, 7, Some(7)),
    (Call::Double, 1, 0, Some(5)),
    (Call::Get, 1, 0, Some(10)),
    (Call::Position, 1, 10, Some(0)),
    (Call::Position, 1, 5, None),
    (Call::Position, 0, 10, None),
    (Call::Len, 1, 0, Some(1)),
    (Call::Free, 0, 0, Some(0)),
    (Call::Remove, 1, 0, Some(10)),
    (Call::Free, 0, 0, Some(1)),
    (Call::PushBack, 0, 7, None),
    (Call::PopFront, 0, 0, Some(7)),
    (Call::PopFront, 0, 0, None),
    (Call::Free, 0, 0, Some(1)),
];

/// Whether a pool with this number of cells and two queues answers as the rows say.
fn is_answered(alloc: Global, cells: usize, rows: &[Row]) -> bool {
    let Ok(mut pool) = CellPool::make(alloc, cells, 2) else {
        return false;
    };
    let mut each = true;
    for (call, queue, number, want) in rows {
        each &= answer(&mut pool, *call, *queue % 2, *number) == *want;
    }
    each
}

#[test]
fn small_pools_answer_as_written(rt: HostRuntime) {
    let alloc = rt.alloc();
    let many = is_answered(alloc, 3, THREE_CELLS) & is_answered(alloc, 2, TWO_CELLS);
    let few = is_answered(alloc, 0, NO_CELL) & is_answered(alloc, 1, ONE_CELL);
    assert!(rt; many & few);
}
