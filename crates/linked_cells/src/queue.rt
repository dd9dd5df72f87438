//! One doubly linked queue of cells: how a cell is linked in and out.
ghost use Rattle.std.specs.Prelude.{◌≡◌, ℕ, ◌+◌, ◌^◌, ◌-◌, ◌<◌, List, [], ◌∷◌, ◌++◌, Option, Some, None, length, get_or, cond, eqb, ⊤};
ghost use Rattle.std.specs.Borrow.{sem};
ghost use Rattle.linked_cells.specs.CellLends.{lends_in_region};
ghost use Rattle.linked_cells.specs.Slots.{place_at, index_of, HasSize, IsCell};
ghost use Rattle.linked_cells.specs.Queues.{value_of, with_next, with_previous, with_links, joined_next, joined_previous, times, IsDistinct, IsQueue, IsNth, IsNthOf, IsLoose, IsLooseOf, SameBut};
ghost use Rattle.linked_cells.specs.Queues.{SameValues, ComesIn};

use crate::region::{Place, Region};
use std::alloc::AllocError;

/// A cell with its value and the places of its neighbours in its queue. At an end of the queue the outer pointer has
/// no meaning.
pub struct Cell<T> {
    pub previous: *mut Cell<T>,
    pub next: *mut Cell<T>,
    pub value: T,
}

/// A queue of `len` cells. If it has no cell, `first` and `last` have no meaning.
pub struct Queue<T> {
    pub first: Place<Cell<T>>,
    pub last: Place<Cell<T>>,
    pub len: usize,
}

impl<T> Clone for Queue<T> {
    ghost is_clone = { λ x y. y ≡ x };

    ghost is_infallible = { λ _. ⊤ };

    fn clone(&self) -> Result<Queue<T>, AllocError> {
        Ok(*self)
    }
}

impl<T> Copy for Queue<T> {}

/// Sets the next cell of the cell at `place`.
fn set_next<T>(region: &mut Region<Cell<T>>, place: Place<Cell<T>>, next: Place<Cell<T>>)
    requires { IsCell region.old.grid region.old.slots place.ptr }
    ensures grid { region.new.grid ≡ region.old.grid }
    ensures slots { region.new.slots ≡ with_next region.old.slots (index_of region.old.grid place.ptr) next.ptr }
{
    let next = next.ptr;
    let cell = region.get_mut(place);
    cell.next = next;
}

/// Sets the previous cell of the cell at `place`.
fn set_previous<T>(region: &mut Region<Cell<T>>, place: Place<Cell<T>>, previous: Place<Cell<T>>)
    requires { IsCell region.old.grid region.old.slots place.ptr }
    ensures grid { region.new.grid ≡ region.old.grid }
    ensures slots { region.new.slots ≡ with_previous region.old.slots (index_of region.old.grid place.ptr) previous.ptr }
{
    let previous = previous.ptr;
    let cell = region.get_mut(place);
    cell.previous = previous;
}

/// Sets both neighbours of the cell at `place`. The cell keeps its value.
fn set_links<T>(
    region: &mut Region<Cell<T>>,
    place: Place<Cell<T>>,
    previous: Place<Cell<T>>,
    next: Place<Cell<T>>,
)
    requires { IsCell region.old.grid region.old.slots place.ptr }
    ensures grid { region.new.grid ≡ region.old.grid }
    ensures slots { region.new.slots ≡ with_links region.old.slots (index_of region.old.grid place.ptr) previous.ptr next.ptr }
{
    let (previous, next) = (previous.ptr, next.ptr);
    let cell = region.get_mut(place);
    cell.previous = previous;
    cell.next = next;
}

/// Makes the cell at `next` follow the one at `previous`. If `before` is 0, it becomes the first of the queue
/// instead.
fn join_next<T>(
    region: &mut Region<Cell<T>>,
    queue: &mut Queue<T>,
    before: usize,
    previous: Place<Cell<T>>,
    next: Place<Cell<T>>,
)
    requires { 0 < before → IsCell region.old.grid region.old.slots previous.ptr }
    ensures grid { region.new.grid ≡ region.old.grid }
    ensures slots { region.new.slots ≡ joined_next (index_of region.old.grid) region.old.slots before previous.ptr next.ptr }
    ensures first { queue.new.first.ptr ≡ cond (eqb before 0) next.ptr queue.old.first.ptr }
    ensures rest { (queue.new.last.ptr ≡ queue.old.last.ptr) × (queue.new.len ≡ queue.old.len) }
{
    if before == 0 {
        queue.first = next;
    } else {
        set_next(region, previous, next);
    }
}

/// Makes the cell at `previous` precede the one at `next`. If `after` is 0, it becomes the last of the queue instead.
fn join_previous<T>(
    region: &mut Region<Cell<T>>,
    queue: &mut Queue<T>,
    after: usize,
    previous: Place<Cell<T>>,
    next: Place<Cell<T>>,
)
    requires { 0 < after → IsCell region.old.grid region.old.slots next.ptr }
    ensures grid { region.new.grid ≡ region.old.grid }
    ensures slots { region.new.slots ≡ joined_previous (index_of region.old.grid) region.old.slots after previous.ptr next.ptr }
    ensures last { queue.new.last.ptr ≡ cond (eqb after 0) previous.ptr queue.old.last.ptr }
    ensures rest { (queue.new.first.ptr ≡ queue.old.first.ptr) × (queue.new.len ≡ queue.old.len) }
{
    if after == 0 {
        queue.last = previous;
    } else {
        set_previous(region, next, previous);
    }
}

/// Takes the cell at `place` out of the queue, in which it is the one at `index`. The cell keeps its value.
pub fn unlink<T>(
    region: &mut Region<Cell<T>>,
    queue: &mut Queue<T>,
    place: Place<Cell<T>>,
    index: usize,
)
    requires { HasSize region.old.grid × IsNthOf region.old.grid region.old.slots queue.old index place.ptr }
    ensures grid { region.new.grid ≡ region.old.grid }
    ensures queue { (xs : List ℕ) (c : ℕ) (ys : List ℕ) → IsNth (place_at region.old.grid) region.old.slots queue.old index place.ptr xs c ys
        → IsQueue (place_at region.old.grid) region.new.slots queue.new (xs ++ ys) }
    ensures cells { (xs : List ℕ) (c : ℕ) (ys : List ℕ) → IsNth (place_at region.old.grid) region.old.slots queue.old index place.ptr xs c ys → SameBut (xs ++ ys) region.old.slots region.new.slots }
    ensures values { SameValues region.old.slots region.new.slots }
{
    let cell = region.get(place);
    let (previous, next) = (Place { ptr: cell.previous }, Place { ptr: cell.next });
    let after = queue.len - index - 1;
    join_next(region, queue, index, previous, next);
    join_previous(region, queue, after, previous, next);
    queue.len -= 1;
}

/// Appends the cell at `place` to the queue, and writes the value to it.
pub fn append<T>(
    region: &mut Region<Cell<T>>,
    queue: &mut Queue<T>,
    place: Place<Cell<T>>,
    value: T,
)
    requires { HasSize region.old.grid × IsLooseOf region.old.grid region.old.slots queue.old place.ptr × (queue.old.len + 1 < 2 ^ 64) }
    ensures grid { region.new.grid ≡ region.old.grid }
    ensures queue { (xs : List ℕ) (c : ℕ) → IsLoose (place_at region.old.grid) region.old.slots queue.old place.ptr xs c
        → IsQueue (place_at region.old.grid) region.new.slots queue.new (xs ++ c ∷ []) }
    ensures cells { (xs : List ℕ) (c : ℕ) → IsLoose (place_at region.old.grid) region.old.slots queue.old place.ptr xs c → ComesIn c value xs region.old.slots region.new.slots }
{
    let last = queue.last;
    let (previous, next) = (last.ptr, place.ptr);
    let cell = Cell {
        previous,
        next,
        value,
    };
    region.write(place, cell);
    join_next(region, queue, queue.len, last, place);
    queue.last = place;
    queue.len += 1;
}

/// Puts the cell at `place` at the front of the queue, and writes the value to it.
pub fn prepend<T>(
    region: &mut Region<Cell<T>>,
    queue: &mut Queue<T>,
    place: Place<Cell<T>>,
    value: T,
)
    requires { HasSize region.old.grid × IsLooseOf region.old.grid region.old.slots queue.old place.ptr × (queue.old.len + 1 < 2 ^ 64) }
    ensures grid { region.new.grid ≡ region.old.grid }
    ensures queue { (xs : List ℕ) (c : ℕ) → IsLoose (place_at region.old.grid) region.old.slots queue.old place.ptr xs c → IsQueue (place_at region.old.grid) region.new.slots queue.new (c ∷ xs) }
    ensures cells { (xs : List ℕ) (c : ℕ) → IsLoose (place_at region.old.grid) region.old.slots queue.old place.ptr xs c → ComesIn c value xs region.old.slots region.new.slots }
{
    let first = queue.first;
    let (previous, next) = (place.ptr, first.ptr);
    let cell = Cell {
        previous,
        next,
        value,
    };
    region.write(place, cell);
    join_previous(region, queue, queue.len, place, first);
    queue.first = place;
    queue.len += 1;
}

/// Puts the cell at `place` at the front of the queue. The cell keeps its value.
pub fn prepend_held<T>(region: &mut Region<Cell<T>>, queue: &mut Queue<T>, place: Place<Cell<T>>)
    requires loose { HasSize region.old.grid × IsLooseOf region.old.grid region.old.slots queue.old place.ptr × (queue.old.len + 1 < 2 ^ 64) }
    requires held { IsCell region.old.grid region.old.slots place.ptr }
    ensures grid { region.new.grid ≡ region.old.grid }
    ensures queue { (xs : List ℕ) (c : ℕ) → IsLoose (place_at region.old.grid) region.old.slots queue.old place.ptr xs c → IsQueue (place_at region.old.grid) region.new.slots queue.new (c ∷ xs) }
    ensures cells { (xs : List ℕ) (c : ℕ) (v : T) → IsLoose (place_at region.old.grid) region.old.slots queue.old place.ptr xs c
        → value_of region.old.slots (index_of region.old.grid place.ptr) ≡ Some v → ComesIn c v xs region.old.slots region.new.slots }
{
    let after = queue.first;
    set_links(region, place, place, after);
    join_previous(region, queue, queue.len, place, after);
    queue.first = place;
    queue.len += 1;
}

/// Lends the value of the cell at `place` for writing.
pub fn value_mut<T>(region: &mut Region<Cell<T>>, place: Place<Cell<T>>) -> &mut T
    requires { IsCell region.old.grid region.old.slots place.ptr }
    ensures* writes_back { sem 𝓛 (lends_in_region T.row region.entry place.ptr result) }
    ensures value { value_of region.old.slots (index_of region.old.grid place.ptr) ≡ Some result.now }
{
    let cell = region.get_mut(place);
    &mut cell.value
}
