//! The calls of a pool, with their answers as numbers.
ghost use Rattle.std.specs.Prelude.{◌≡◌, ◌<◌, length};

use cell_pool::CellPool;

/// A call of a pool. `Double` doubles the value at its place.
#[derive(Clone, Copy)]
pub enum Call {
    PushBack,
    PushFront,
    PopFront,
    Remove,
    Double,
    Get,
    Position,
    Len,
    Free,
}

/// The value, place or count that the call returns. None if it returns none, or its place is not there.
pub fn answer(pool: &mut CellPool<u64>, call: Call, queue: usize, number: u64) -> Option<u64>
    requires { queue < length pool.old.lists }
    ensures { length pool.new.lists ≡ length pool.old.lists }
{
    let place = number as usize;
    let len = pool.len(queue);
    match call {
        Call::PushBack => pool.push_back(queue, number).err(),
        Call::PushFront => pool.push_front(queue, number).err(),
        Call::PopFront => pool.pop_front(queue),
        Call::Remove if place < len => Some(pool.remove(queue, place)),
        Call::Double if place < len => Some(double(pool.get_mut(queue, place))),
        Call::Get if place < len => Some(*pool.get(queue, place)),
        Call::Position => match pool.position(queue, |value| *value == number) {
            Some(at) => Some(at as u64),
            None => None,
        },
        Call::Len => Some(len as u64),
        Call::Free => Some(pool.free() as u64),
        _ => None,
    }
}

fn double(value: &mut u64) -> u64 {
    let was = *value;
    *value = was.saturating_mul(2);
    was
}
