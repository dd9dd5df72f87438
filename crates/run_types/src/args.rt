ghost use Rattle.std.specs.Prelude.{◌≡◌, [], ◌∷◌, ◌++◌, ◌<◌, ◌≤◌, length};

use crate::types::Value;
use std::marker::Model;

/// An argument list of at most 8 values. Contracts see it as a list.
#[derive(Clone, Copy)]
pub struct Args {
    values: [Value; 8],
    count: usize,
}

impl Model for Args {
    ghost use Rattle.std.specs.Prelude.{List as value_list, ◌≡◌, ◌≤◌, length, take as first_of};
    ghost use Rattle.run_types.specs.declared.types.Value.{Value as OneValue};
    ghost use Rattle.run_types.specs.Filled.{filled};

    ghost Value = { value_list OneValue };

    ghost view = { λ a. first_of a.count a.values };

    ghost invariant = { λ a. (a.count ≤ 8) × (filled (first_of a.count a.values) ≡ a.values) × (length (first_of a.count a.values) ≡ a.count) };

    ghost inverse = { λ d. record { values = filled d; count = length d } };

    ghost inverse_ok = { λ a h i. record { values = h.1 i; count = h.2 i } };
}

impl Args {
    /// Reports the empty argument list.
    pub fn make() -> Args
        ensures { result ≡ [] }
    {
        Args {
            values: [Value::Nil; 8],
            count: 0,
        }
    }

    /// Appends a value. Requires that fewer than 8 values are there.
    pub fn add(&mut self, value: Value)
        requires { length self.old < 8 }
        ensures { self.new ≡ self.old ++ value ∷ [] }
    {
        self.values[self.count] = value;
        self.count += 1;
    }

    /// Lends the values in order.
    pub fn values(&self) -> &[Value]
        ensures { result.now ≡ self.now }
    {
        &self.values[..self.count]
    }

    /// Reports the number of values.
    pub fn len(&self) -> usize
        ensures count { result ≡ length self.now }
        ensures few { result ≤ 8 }
    {
        self.count
    }
}
