//! The operands of a frame.
ghost use Rattle.std.specs.Prelude.{◌≡◌, ◌<◌, ◌≤◌, ◌+◌, [], ◌∷◌, length};
ghost use Rattle.run_types.specs.Operands.{top, below, dropped, nth};

use run_types::Value;
use std::marker::Model;

/// A stack of at most 64 values. Contracts see a list whose first item was pushed last. The array may hold any values
/// after the stack.
#[derive(Drop)]
pub struct Operands {
    values: [Value; 64],
    count: u32,
}

impl Model for Operands {
    ghost use Rattle.std.specs.Prelude.{List as value_list, ◌≡◌, ◌≤◌, length};
    ghost use Rattle.run_types.specs.declared.types.Value.{Value as OneValue};
    ghost use Rattle.node_heap.specs.Rows.{stack};

    ghost Value = { value_list OneValue };

    ghost view = { λ s. stack s.values s.count };

    ghost invariant = { λ s. (s.count ≤ 64) × (length s.values ≡ 64) };
}

impl Operands {
    /// Returns no operands.
    pub fn make() -> Operands
        ensures { result ≡ [] }
    {
        Operands {
            values: [Value::Nil; 64],
            count: 0,
        }
    }

    /// Drops all operands.
    pub fn clear(&mut self)
        ensures { self.new ≡ [] }
    {
        self.count = 0;
    }

    /// Pushes a value. Requires fewer than 64 operands.
    pub fn push(&mut self, value: Value)
        requires { length self.old < 64 }
        ensures { self.new ≡ value ∷ self.old }
    {
        self.values[self.count as usize] = value;
        self.count += 1;
    }

    /// Pops a value. Requires one operand.
    pub fn pop(&mut self) -> Value
        requires { 0 < length self.old }
        ensures value { result ≡ top self.old }
        ensures rest { self.new ≡ below self.old }
    {
        self.count -= 1;
        self.values[self.count as usize]
    }

    /// Drops the last `count` operands. Requires as many.
    pub fn discard(&mut self, count: u32)
        requires { count ≤ length self.old }
        ensures { self.new ≡ dropped count self.old }
    {
        self.count -= count;
    }

    /// Replaces the last `count` operands by a value. Requires `count` operands, and that at most 64 result.
    pub fn replace(&mut self, count: u32, value: Value)
        requires enough { count ≤ length self.old }
        requires room { length self.old < 64 + count }
        ensures { self.new ≡ value ∷ dropped count self.old }
    {
        let place = self.count - count;
        self.values[place as usize] = value;
        self.count = place + 1;
    }

    /// The operand that has `from_top` others above it. Requires that it exists.
    pub fn get(&self, from_top: u32) -> Value
        requires { from_top < length self.now }
        ensures { result ≡ nth self.now from_top }
    {
        self.values[(self.count - 1 - from_top) as usize]
    }
}
