//! A ring buffer.
ghost use Rattle.std.specs.Prelude.{◌≡◌, ◌+◌, ◌<◌, ◌≤◌, ◌==◌, List, [], ◌∷◌, ◌++◌, length, drop, option_map, slice_get};
ghost use Rattle.wire_link.specs.Rings.{wrap};
ghost use Rattle.wire_link.specs.Bytes.{FrameFits, bytes_of};
ghost use Rattle.wire_link.specs.declared.frame.Frame.TheVariants as F;

use crate::frame::FrameBytes;
use crate::writing::{put_ack_frame, put_data_frame};
use arrayvec::ArrayVec;
use rendezvous_protocol::Packet;
use std::marker::Model;

/// The frames in transit on one side of a wire, at most 16.
pub type Frames = Ring<FrameBytes, 16>;

/// A queue of at most `N` items in an array. Its first item may be at any index, and the items continue around the end.
#[derive(Drop)]
pub struct Ring<T, const N: usize> {
    cells: [T; N],
    first: usize,
    count: usize,
}

impl<T, const N: usize> Model for Ring<T, N> {
    ghost use Rattle.std.specs.Prelude.{◌≡◌, ◌≤◌, length};
    ghost use Rattle.arrayvec.specs.ArrayVec.{ArrayVec as Items, array_vec_code};
    ghost use Rattle.wire_link.specs.Rings.{from_place};

    ghost Value = { Items T };

    ghost coded = { array_vec_code T.code };

    ghost view = { λ r. record { items = from_place r.first r.count r.cells } };

    ghost invariant = { λ r. (r.first ≤ N) × (r.count ≤ N) × (length r.cells ≡ N) };
}

impl<T: Default, const N: usize> Ring<T, N> {
    /// Returns a queue without items.
    pub fn make() -> Self
        ensures { result.items ≡ [] }
    {
        Ring {
            cells: Default::default(),
            first: 0,
            count: 0,
        }
    }
}

impl<T: Drop, const N: usize> Ring<T, N> {
    /// Reports whether the queue has `N` items.
    pub fn is_full(&self) -> bool
        ensures value { result ≡ (length self.now.items == N) }
        ensures fits { length self.now.items ≤ N }
    {
        self.count == N
    }

    /// The item at index `place`, counted from 0 at the first. None past the last.
    pub fn get(&self, place: usize) -> Option<&T>
        ensures { option_map (λ r. r.now) result ≡ slice_get self.now.items place }
    {
        if place < self.count {
            Some(&self.cells[wrapped(self.first, place, N)])
        } else {
            None
        }
    }

    /// Drops the first `count` items. Requires as many.
    pub fn skip(&mut self, count: usize)
        requires { count ≤ length self.old.items }
        ensures { self.new.items ≡ drop count self.old.items }
    {
        self.first = wrapped(self.first, count, N);
        self.count -= count;
    }

    /// Appends an item. Requires fewer than `N` items.
    pub fn push(&mut self, item: T)
        requires { length self.old.items < N }
        ensures { self.new.items ≡ self.old.items ++ item ∷ [] }
    {
        let place = wrapped(self.first, self.count, N);
        self.cells[place] = item;
        self.count += 1;
    }
}

/// The index that is `place` cells after `first`, around the end of an array of `size` cells.
fn wrapped(first: usize, place: usize, size: usize) -> usize
    requires { first ≤ size }
    ensures { result ≡ wrap (first + place) size }
{
    let behind = size - first;
    if place < behind {
        first + place
    } else {
        place - behind
    }
}

/// Appends a data frame, and writes its bytes directly into its cell. Requires fewer than 16 frames.
pub fn write_data(frames: &mut Frames, number: u32, packet: &Packet)
    requires { length frames.old.items < 16 }
    ensures items { frames.new.items ≡ frames.old.items ++ bytes_of (F.Data number packet.now) ∷ [] }
    ensures fits { FrameFits (F.Data number packet.now) }
{
    let place = wrapped(frames.first, frames.count, 16);
    frames.cells[place] = ArrayVec::new();
    put_data_frame(&mut frames.cells[place], number, packet);
    frames.count += 1;
}

/// Appends an acknowledgement, and writes its bytes directly into its cell. Requires fewer than 16 frames.
pub fn write_ack(frames: &mut Frames, number: u32)
    requires { length frames.old.items < 16 }
    ensures items { frames.new.items ≡ frames.old.items ++ bytes_of (F.Ack number) ∷ [] }
    ensures fits { FrameFits (F.Ack number) }
{
    let place = wrapped(frames.first, frames.count, 16);
    frames.cells[place] = ArrayVec::new();
    put_ack_frame(&mut frames.cells[place], number);
    frames.count += 1;
}
