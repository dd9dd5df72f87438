//! The objects of one node.
ghost use Rattle.std.specs.Prelude.{◌≡◌, ◌<◌, ◌≤◌, ◌↔◌, ◌+◌, ◌^◌, suc, true, false, [], ◌∷◌, ◌++◌, length, slice_set, Some, IfOk, OnErr, OnOk, Err};
ghost use Rattle.run_types.specs.declared.types.Serves.TheVariants as S;
ghost use Rattle.run_types.specs.Operands.{top, below, dropped, nth};
ghost use Rattle.cell_pool.specs.Lists.{lengths, list_of, with_list, free_of};
ghost use Rattle.node_heap.specs.Layout.{frame_of};
ghost use Rattle.node_heap.specs.Heaps.{object_at, put_object, frames_used, unbegun, frame_by, head_by, top_in, under_top, top_at, put_top};

use crate::cells::{FrameCell, Slot};
use crate::types::{FrameHead, HeapFull, HeapLimits};
use cell_pool::CellPool;
use run_types::{Serves, Value};
use std::alloc::{AllocError, Global};
use std::marker::Model;

/// The object slots, variables and frames of one node. Slots are numbered from 0 in the order of `place`, and are never
/// freed. Contracts see an object of code for each slot.
#[derive(Drop)]
pub struct Heap {
    limits: HeapLimits,
    slots: Vec<Slot>,
    values: Vec<Value>,
    frames: CellPool<FrameCell>,
}

impl Model for Heap {
    ghost use Rattle.run_types.specs.contracts.frames.CodeObject as image;
    ghost use Rattle.node_heap.specs.Heaps.{HeapOf, heap_code};

    ghost Value = { HeapOf };

    ghost coded = { heap_code image.the_row.coded };

    ghost use Rattle.node_heap.specs.Parts.{heap_of, IsHeap};

    ghost view = { heap_of };

    ghost invariant = { IsHeap };
}

/// Starts a frame at the front of a queue, and reports whether a cell was free.
fn begin_frame(frames: &mut CellPool<FrameCell>, queue: usize, head: FrameHead) -> bool
    requires queue { queue < length frames.old.lists }
    requires temps { head.temps ≤ 32 }
    ensures full { (result ≡ false) ↔ (free_of frames.old ≡ 0) }
    ensures within { lengths frames.old.lists ≤ frames.old.cells }
    ensures begun { result ≡ true → (c : FrameCell) × (frame_of c ≡ frame_by head) × (frames.new ≡ with_list frames.old queue (c ∷ list_of frames.old queue)) }
    ensures same { result ≡ false → frames.new ≡ frames.old }
{
    if !frames.push_front_reusing(queue) {
        return false;
    }
    let cell = frames.get_mut(queue, 0);
    cell.begin(head);
    true
}

impl Heap {
    /// Makes a heap without objects, and allocates all its slots, variables and frames. Requires at most 4096 objects,
    /// 16384 frames and 64 variables for each object, and a node below 64. Returns `Err` if memory runs out.
    pub fn make(alloc: Global, limits: HeapLimits) -> Result<Heap, AllocError>
        requires node { limits.node < 64 }
        requires objects { limits.objects ≤ 4096 }
        requires frames { limits.frames ≤ 16384 }
        requires vars { limits.vars ≤ 64 }
        ensures { IfOk result (λ h. h ≡ record { node = limits.node; most_objects = limits.objects; most_frames = limits.frames; most_vars = limits.vars; objects = [] }) }
    {
        let objects = limits.objects as usize;
        let count = objects * limits.vars as usize;
        let slots = Vec::with_capacity(alloc, objects)?;
        let mut values = Vec::with_capacity(alloc, count)?;
        values.resize(count, Value::Nil)?;
        let frames = CellPool::make(alloc, limits.frames as usize, objects)?;
        Ok(Heap {
            limits,
            slots,
            values,
            frames,
        })
    }

    /// Makes an object in a new slot, and returns the number of the slot. `class` is the index of its class in the
    /// unit. It has `vars` variables, all nil, and the frame of its body. Returns `Objects` if the heap has its limit
    /// of objects. Otherwise returns `Frames` if its limit of frames is in use. An error changes nothing.
    pub fn place(&mut self, class: u32, vars: u32) -> Result<u32, HeapFull>
        requires { vars ≤ self.old.most_vars }
        ensures ok { IfOk result (λ slot. (slot ≡ length self.old.objects) × (self.new ≡ record self.old { objects = self.old.objects ++ unbegun class vars ∷ [] })) }
        ensures err { OnErr result (self.new ≡ self.old) }
        ensures objects { (result ≡ Err HeapFull.Objects) ↔ (length self.old.objects ≡ self.old.most_objects) }
        ensures frames { (result ≡ Err HeapFull.Frames) ↔ ((length self.old.objects < self.old.most_objects) × (frames_used self.old ≡ self.old.most_frames)) }
    {
        let slot = self.slots.len();
        if slot == self.limits.objects as usize {
            return Err(HeapFull::Objects);
        }
        let head = FrameHead {
            method: None,
            temps: 0,
            serves: Serves::Sender,
        };
        if !begin_frame(&mut self.frames, slot, head) {
            return Err(HeapFull::Frames);
        }
        self.slots.push_reserved(Slot { class, vars });
        Ok(slot as u32)
    }

    /// Pushes a frame onto those of a slot: at place 0, with nil temps and no operands. Requires at most 32 temps.
    /// Returns `Frames`, and changes nothing, if the limit of frames is in use. No other error occurs.
    pub fn push_frame(&mut self, slot: u32, frame: FrameHead) -> Result<(), HeapFull>
        requires slot { slot < length self.old.objects }
        requires temps { frame.temps ≤ 32 }
        ensures ok { OnOk result (self.new ≡ put_object self.old slot (record (object_at self.old slot) { frames = frame_by frame ∷ (object_at self.old slot).frames })) }
        ensures err { OnErr result ((result ≡ Err HeapFull.Frames) × (self.new ≡ self.old)) }
        ensures full { (result ≡ Err HeapFull.Frames) ↔ (frames_used self.old ≡ self.old.most_frames) }
    {
        if begin_frame(&mut self.frames, slot as usize, frame) {
            Ok(())
        } else {
            Err(HeapFull::Frames)
        }
    }

    /// Removes the top frame of a slot, and returns its head. Requires a frame below it.
    pub fn pop_frame(&mut self, slot: u32) -> FrameHead
        requires slot { slot < length self.old.objects }
        requires frames { 1 < length (object_at self.old slot).frames }
        ensures head { result ≡ head_by (top_at self.old slot) }
        ensures frames { self.new ≡ put_object self.old slot (record (object_at self.old slot) { frames = under_top (object_at self.old slot).frames }) }
    {
        let head = self.head(slot);
        self.frames.discard_front(slot as usize);
        head
    }

    /// The head of a slot's top frame.
    pub fn head(&self, slot: u32) -> FrameHead
        requires { slot < length self.now.objects }
        ensures { result ≡ head_by (top_at self.now slot) }
    {
        self.frames.get(slot as usize, 0).head()
    }

    /// The place of the current instruction of a slot's top frame.
    pub fn at(&self, slot: u32) -> u32
        requires { slot < length self.now.objects }
        ensures { result ≡ (top_at self.now slot).at }
    {
        self.frames.get(slot as usize, 0).at
    }

    /// Moves a slot's top frame to a place in its code.
    pub fn set_at(&mut self, slot: u32, at: u32)
        requires { slot < length self.old.objects }
        ensures { self.new ≡ put_top self.old slot (record (top_at self.old slot) { at = at }) }
    {
        let frame = self.frames.get_mut(slot as usize, 0);
        frame.at = at;
    }

    /// Moves a slot's top frame to the next place.
    pub fn advance(&mut self, slot: u32)
        requires slot { slot < length self.old.objects }
        requires place { suc (top_at self.old slot).at < 2 ^ 32 }
        ensures { self.new ≡ put_top self.old slot (record (top_at self.old slot) { at = suc (top_at self.old slot).at }) }
    {
        let frame = self.frames.get_mut(slot as usize, 0);
        frame.advance();
    }

    /// Sets who receives the value of a slot's top frame.
    pub fn set_serves(&mut self, slot: u32, serves: Serves)
        requires { slot < length self.old.objects }
        ensures { self.new ≡ put_top self.old slot (record (top_at self.old slot) { serves = serves }) }
    {
        let frame = self.frames.get_mut(slot as usize, 0);
        frame.serves = serves;
    }

    /// Variable `k` of a slot, counted from 0.
    pub fn load_var(&self, slot: u32, k: u32) -> Value
        requires slot { slot < length self.now.objects }
        requires place { k < length (object_at self.now slot).vars }
        ensures { result ≡ nth (object_at self.now slot).vars k }
    {
        self.values[slot as usize * self.limits.vars as usize + k as usize]
    }

    /// Sets variable `k` of a slot, counted from 0.
    pub fn store_var(&mut self, slot: u32, k: u32, value: Value)
        requires slot { slot < length self.old.objects }
        requires place { k < length (object_at self.old slot).vars }
        ensures { self.new ≡ put_object self.old slot (record (object_at self.old slot) { vars = slice_set (object_at self.old slot).vars k value }) }
    {
        let place = slot as usize * self.limits.vars as usize + k as usize;
        self.values[place] = value;
    }

    /// Parameter or local `k` of a slot's top frame, counted from 0.
    pub fn load_temp(&self, slot: u32, k: u32) -> Value
        requires slot { slot < length self.now.objects }
        requires place { k < length (top_at self.now slot).temps }
        ensures { result ≡ nth (top_at self.now slot).temps k }
    {
        self.frames.get(slot as usize, 0).temps.load(k)
    }

    /// Sets parameter or local `k` of a slot's top frame, counted from 0.
    pub fn store_temp(&mut self, slot: u32, k: u32, value: Value)
        requires slot { slot < length self.old.objects }
        requires place { k < length (top_at self.old slot).temps }
        ensures { self.new ≡ put_top self.old slot (record (top_at self.old slot) { temps = slice_set (top_at self.old slot).temps k value }) }
    {
        let frame = self.frames.get_mut(slot as usize, 0);
        frame.temps.store(k, value);
    }

    /// Pushes a value onto the operands of a slot's top frame. Requires fewer than 64 operands.
    pub fn push(&mut self, slot: u32, value: Value)
        requires slot { slot < length self.old.objects }
        requires room { length (top_at self.old slot).operands < 64 }
        ensures { self.new ≡ put_top self.old slot (record (top_at self.old slot) { operands = value ∷ (top_at self.old slot).operands }) }
    {
        let frame = self.frames.get_mut(slot as usize, 0);
        frame.operands.push(value);
    }

    /// Pops an operand of a slot's top frame. Requires one.
    pub fn pop(&mut self, slot: u32) -> Value
        requires slot { slot < length self.old.objects }
        requires one { 0 < length (top_at self.old slot).operands }
        ensures value { result ≡ top (top_at self.old slot).operands }
        ensures rest { self.new ≡ put_top self.old slot (record (top_at self.old slot) { operands = below (top_at self.old slot).operands }) }
    {
        let frame = self.frames.get_mut(slot as usize, 0);
        frame.operands.pop()
    }

    /// Pushes a value onto the operands of a slot's top frame, and moves the frame to the next place. Requires fewer
    /// than 64 operands.
    pub fn push_next(&mut self, slot: u32, value: Value)
        requires slot { slot < length self.old.objects }
        requires place { suc (top_at self.old slot).at < 2 ^ 32 }
        requires room { length (top_at self.old slot).operands < 64 }
        ensures { self.new ≡ put_top self.old slot (record (top_at self.old slot) { at = suc (top_at self.old slot).at; operands = value ∷ (top_at self.old slot).operands }) }
    {
        let frame = self.frames.get_mut(slot as usize, 0);
        frame.push_next(value);
    }

    /// Pops an operand of a slot's top frame, and moves the frame to the next place. Requires one operand.
    pub fn pop_next(&mut self, slot: u32) -> Value
        requires slot { slot < length self.old.objects }
        requires place { suc (top_at self.old slot).at < 2 ^ 32 }
        requires one { 0 < length (top_at self.old slot).operands }
        ensures value { result ≡ top (top_at self.old slot).operands }
        ensures rest { self.new ≡ put_top self.old slot (record (top_at self.old slot) { at = suc (top_at self.old slot).at; operands = below (top_at self.old slot).operands }) }
    {
        let frame = self.frames.get_mut(slot as usize, 0);
        frame.pop_next()
    }

    /// Drops the last `count` operands of a slot's top frame. Requires as many.
    pub fn drop_operands(&mut self, slot: u32, count: u32)
        requires slot { slot < length self.old.objects }
        requires enough { count ≤ length (top_at self.old slot).operands }
        ensures { self.new ≡ put_top self.old slot (record (top_at self.old slot) { operands = dropped count (top_at self.old slot).operands }) }
    {
        let frame = self.frames.get_mut(slot as usize, 0);
        frame.operands.discard(count);
    }

    /// Replaces the last `count` operands of a slot's top frame by a value, and moves the frame to the next place.
    /// Requires `count` operands, and that at most 64 result.
    pub fn replace(&mut self, slot: u32, count: u32, value: Value)
        requires slot { slot < length self.old.objects }
        requires place { suc (top_at self.old slot).at < 2 ^ 32 }
        requires enough { count ≤ length (top_at self.old slot).operands }
        requires room { length (top_at self.old slot).operands < 64 + count }
        ensures { self.new ≡ put_top self.old slot (record (top_at self.old slot) { at = suc (top_at self.old slot).at; operands = value ∷ dropped count (top_at self.old slot).operands }) }
    {
        let frame = self.frames.get_mut(slot as usize, 0);
        frame.replace(count, value);
    }

    /// The operand of a slot's top frame that has `from_top` others above it. Requires that it exists.
    pub fn operand(&self, slot: u32, from_top: u32) -> Value
        requires slot { slot < length self.now.objects }
        requires place { from_top < length (top_at self.now slot).operands }
        ensures { result ≡ nth (top_at self.now slot).operands from_top }
    {
        self.frames.get(slot as usize, 0).operands.get(from_top)
    }

    /// The class of a slot's object, as its index in the unit.
    pub fn class_of(&self, slot: u32) -> u32
        requires { slot < length self.now.objects }
        ensures { result ≡ (object_at self.now slot).class }
    {
        self.slots[slot as usize].class
    }

    /// The number of the node.
    pub fn node(&self) -> u32
        ensures number { result ≡ self.now.node }
        ensures small { result < 64 }
    {
        self.limits.node
    }

    /// The number of objects, at most the limit.
    pub fn objects(&self) -> u32
        ensures count { result ≡ length self.now.objects }
        ensures within { (result ≤ self.now.most_objects) × (self.now.most_objects ≤ 4096) }
    {
        self.slots.len() as u32
    }

    /// The number of frames in use, at most the limit.
    pub fn frames(&self) -> u32
        ensures count { result ≡ frames_used self.now }
        ensures within { (result ≤ self.now.most_frames) × (self.now.most_frames ≤ 16384) }
    {
        self.limits.frames - self.frames.free() as u32
    }

    /// The limit of frames, of all objects together.
    pub fn frame_limit(&self) -> u32
        ensures { result ≡ self.now.most_frames }
    {
        self.limits.frames
    }
}
