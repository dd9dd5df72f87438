//! The temps of a frame.
ghost use Rattle.std.specs.Prelude.{◌≡◌, ◌<◌, ◌≤◌, [], length, slice_set};
ghost use Rattle.run_types.specs.Operands.{nth};
ghost use Rattle.node_heap.specs.Heaps.{nils};

use run_types::Value;
use std::marker::Model;

/// At most 32 values, seen by contracts as a list. The array may hold any values after them.
#[derive(Drop)]
pub struct Temps {
    values: [Value; 32],
    count: u32,
}

impl Model for Temps {
    ghost use Rattle.std.specs.Prelude.{List as value_list, ◌≡◌, ◌≤◌, length, take as first_of};
    ghost use Rattle.run_types.specs.declared.types.Value.{Value as OneValue};

    ghost Value = { value_list OneValue };

    ghost view = { λ t. first_of t.count t.values };

    ghost invariant = { λ t. (t.count ≤ 32) × (length t.values ≡ 32) };
}

impl Temps {
    /// Returns no temps.
    pub fn make() -> Temps
        ensures { result ≡ [] }
    {
        Temps {
            values: [Value::Nil; 32],
            count: 0,
        }
    }

    /// Sets the temps to `count` nils. Requires at most 32.
    pub fn begin(&mut self, count: u32)
        requires { count ≤ 32 }
        ensures { self.new ≡ nils count }
    {
        for place in 0..count as usize {
            self.values[place] = Value::Nil;
        }
        self.count = count;
    }

    /// The number of temps.
    pub fn len(&self) -> u32
        ensures { result ≡ length self.now }
    {
        self.count
    }

    /// Temp `k`, counted from 0.
    pub fn load(&self, k: u32) -> Value
        requires { k < length self.now }
        ensures { result ≡ nth self.now k }
    {
        self.values[k as usize]
    }

    /// Sets temp `k`, counted from 0.
    pub fn store(&mut self, k: u32, value: Value)
        requires { k < length self.old }
        ensures { self.new ≡ slice_set self.old k value }
    {
        self.values[k as usize] = value;
    }
}
