//! The contents of a heap's cells: slots and frames.
ghost use Rattle.std.specs.Prelude.{◌≡◌, ◌<◌, ◌≤◌, ◌+◌, ◌^◌, suc, ◌∷◌, length};
ghost use Rattle.run_types.specs.Operands.{top, below, dropped};
ghost use Rattle.node_heap.specs.Heaps.{frame_by, head_by};
ghost use Rattle.node_heap.specs.Layout.{frame_of};

use crate::operands::Operands;
use crate::temps::Temps;
use crate::types::FrameHead;
use run_types::{Serves, Value};

/// The class of a slot's object, as its index in the unit, and its number of variables.
#[derive(Clone, Copy)]
pub struct Slot {
    pub class: u32,
    pub vars: u32,
}

/// A frame, as a cell holds it. `method` is the index of the method in its class, or None for a body. `at` is the place
/// of the current instruction. `serves` says who receives the value.
#[derive(Drop)]
pub struct FrameCell {
    pub method: Option<u32>,
    pub at: u32,
    pub temps: Temps,
    pub operands: Operands,
    pub serves: Serves,
}

impl Default for FrameCell {
    fn default() -> FrameCell {
        FrameCell {
            method: None,
            at: 0,
            temps: Temps::make(),
            operands: Operands::make(),
            serves: Serves::Sender,
        }
    }
}

impl FrameCell {
    /// Starts a new frame in this cell: at place 0, with nil temps and no operands. Requires at most 32 temps. It
    /// writes nothing else.
    pub fn begin(&mut self, head: FrameHead)
        requires { head.temps ≤ 32 }
        ensures { frame_of self.new ≡ frame_by head }
    {
        self.method = head.method;
        self.at = 0;
        self.temps.begin(head.temps);
        self.operands.clear();
        self.serves = head.serves;
    }

    /// Goes to the next place.
    pub fn advance(&mut self)
        requires { suc self.old.at < 2 ^ 32 }
        ensures { self.new ≡ record self.old { at = suc self.old.at } }
    {
        self.at += 1;
    }

    /// Pushes a value, and goes to the next place.
    pub fn push_next(&mut self, value: Value)
        requires place { suc self.old.at < 2 ^ 32 }
        requires room { length self.old.operands < 64 }
        ensures { self.new ≡ record self.old { at = suc self.old.at; operands = value ∷ self.old.operands } }
    {
        self.operands.push(value);
        self.at += 1;
    }

    /// Pops a value, and goes to the next place.
    pub fn pop_next(&mut self) -> Value
        requires place { suc self.old.at < 2 ^ 32 }
        requires one { 0 < length self.old.operands }
        ensures value { result ≡ top self.old.operands }
        ensures rest { self.new ≡ record self.old { at = suc self.old.at; operands = below self.old.operands } }
    {
        self.at += 1;
        self.operands.pop()
    }

    /// Replaces the last `count` operands by a value, and goes to the next place. Requires that at most 64 operands
    /// result.
    pub fn replace(&mut self, count: u32, value: Value)
        requires place { suc self.old.at < 2 ^ 32 }
        requires enough { count ≤ length self.old.operands }
        requires room { length self.old.operands < 64 + count }
        ensures { self.new ≡ record self.old { at = suc self.old.at; operands = value ∷ dropped count self.old.operands } }
    {
        self.operands.replace(count, value);
        self.at += 1;
    }

    /// The head of the frame: its method, its number of temps, and who receives its value.
    pub fn head(&self) -> FrameHead
        ensures { result ≡ head_by (frame_of self.now) }
    {
        FrameHead {
            method: self.method,
            temps: self.temps.len(),
            serves: self.serves,
        }
    }
}
