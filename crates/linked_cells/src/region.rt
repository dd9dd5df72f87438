//! One block of cells, each of which is empty or holds a value. Only the functions of this file follow raw pointers.
ghost use Rattle.std.specs.Prelude.{◌≡◌, ℕ, ◌<◌, List, Option, Some, None, length, get_or, replicate, slice_set, IfOk, ⊤};
ghost use Rattle.std.specs.Borrow.{sem};
ghost use Rattle.std.specs.Mem.{type_size};
ghost use Rattle.std.specs.Vec.Ownership.{FitsInBlock};
ghost use base.Fml.{ftrue};
ghost use denote.RawPtr.{Ptr};
ghost use Rattle.linked_cells.specs.Slots.{place_at, index_of, IsPlace, IsCell};
ghost use Rattle.linked_cells.specs.Ownership.{region_owns, region_lends, deed_owns};

use std::alloc::{AllocError, Allocator};
use std::marker::{Model, PhantomData};
use std::mem::{align_of, size_of};

/// The place of a cell. It owns nothing, and any number of copies may refer to one cell.
pub struct Place<T> {
    pub ptr: *mut T,
}

impl<T> Clone for Place<T> {
    ghost is_clone = { λ x y. y ≡ x };

    ghost is_infallible = { λ _. ⊤ };

    fn clone(&self) -> Result<Place<T>, AllocError> {
        Ok(*self)
    }
}

impl<T> Copy for Place<T> {}

/// The owner of the cells. It takes no space. `grid` has the size of a cell in bytes and the place of the first cell.
/// `slots` has the value of each cell, if there is one.
pub struct Region<T> {
    mark: PhantomData<*const T>,
    ghost grid: { ℕ × Ptr },
    ghost slots: { List (Option T) },
}

impl<T> Model for Region<T> {
    ghost also_owns = { λ r. region_owns T.row r.grid.0 r.grid.1 r.slots };

    ghost also_shares = { λ r _ κ. region_lends T.row r.grid.0 r.grid.1 r.slots κ };
}

/// The right to return the block of `len` cells at `at` to `alloc`. It takes no space.
pub struct Deed<T, A: Allocator> {
    mark: PhantomData<*const (T, A)>,
    ghost at: { Ptr },
    ghost len: { ℕ },
    ghost alloc: { A },
}

impl<T, A: Allocator> Model for Deed<T, A> {
    ghost also_owns = { λ d. deed_owns T.row (A.dealloc_token d.alloc) d.at d.len };

    ghost also_shares = { λ _ _ _. ftrue };
}

/// Allocates a block of `len` empty cells. An error means out of memory.
pub fn allocate<T, A: Allocator>(
    alloc: &A,
    len: usize,
) -> Result<(Place<T>, Region<T>, Deed<T, A>), AllocError>
    requires { FitsInBlock T.row len }
    ensures { IfOk result (λ r. (r.1.grid ≡ (type_size T.row, r.0.ptr)) × (r.1.slots ≡ replicate len None) × (r.2.at ≡ r.0.ptr) × (r.2.len ≡ len) × (r.2.alloc ≡ alloc.now)) }
{
    match alloc.allocate(len * size_of::<T>(), align_of::<T>()) {
        Ok(block) => {
            let base = Place {
                ptr: block as *mut T,
            };
            let region = Region { mark: PhantomData };
            let deed = Deed { mark: PhantomData };
            Ok((base, region, deed))
        }
        Err(error) => Err(error),
    }
}

/// Frees the block. The values in its cells are not dropped.
pub fn deallocate<T, A: Allocator>(
    alloc: &A,
    base: Place<T>,
    len: usize,
    region: Region<T>,
    deed: Deed<T, A>,
)
    requires { (region.grid.1 ≡ base.ptr) × (length region.slots ≡ len) × (deed.at ≡ base.ptr) × (deed.len ≡ len) × (deed.alloc ≡ alloc.now) }
{
    let Region { mark: _ } = region;
    let Deed { mark: _ } = deed;
    unsafe {
        alloc.deallocate(base.ptr as *mut u8, len * size_of::<T>(), align_of::<T>());
    }
}

impl<T> Region<T> {
    ghost use Rattle.linked_cells.specs.RegionLends.{lends_slot};

    /// Reports the place of the cell with the number `index`, counted from `base`.
    pub fn place(&self, base: Place<T>, index: usize) -> Place<T>
        requires { (base.ptr ≡ self.now.grid.1) × (index < length self.now.slots) }
        ensures { result.ptr ≡ place_at self.now.grid index }
    {
        Place {
            ptr: unsafe { base.ptr.add(index) },
        }
    }

    /// Writes the item to the cell. An earlier value is not dropped.
    pub fn write(&mut self, place: Place<T>, item: T)
        requires { IsPlace self.old.grid (length self.old.slots) place.ptr }
        ensures { (self.new.grid ≡ self.old.grid) × (self.new.slots ≡ slice_set self.old.slots (index_of self.old.grid place.ptr) (Some item)) }
    {
        unsafe { place.ptr.write(item) }
    }

    /// Lends the value in the cell.
    pub fn get(&self, place: Place<T>) -> &T
        requires { IsCell self.now.grid self.now.slots place.ptr }
        ensures { get_or self.now.slots (index_of self.now.grid place.ptr) None ≡ Some result.now }
    {
        unsafe { &*place.ptr }
    }

    /// Lends the value in the cell for writing.
    pub fn get_mut(&mut self, place: Place<T>) -> &mut T
        requires { IsCell self.old.grid self.old.slots place.ptr }
        ensures* writes_back { sem 𝓛 (lends_slot T.row self.entry place.ptr result) }
        ensures value { get_or self.old.slots (index_of self.old.grid place.ptr) None ≡ Some result.now }
    {
        unsafe { &mut *place.ptr }
    }
}
