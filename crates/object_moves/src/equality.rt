//! Equality of what labels hold.
ghost use Rattle.std.specs.Prelude.{◌≡◌, ◌==◌, true};
ghost use Rattle.run_types.specs.Same.{are_same, error_number, is_same_item};

use operators::same;
use run_types::{Error, Item, Value};

/// Whether two lists of values are the same.
pub fn same_values(left: &[Value], right: &[Value]) -> bool
    ensures is { result ≡ are_same left.now right.now }
    ensures same { result ≡ true → left.now ≡ right.now }
{
    let mut values = left;
    let mut others = right;
    while let Some((value, more)) = values.split_first() {
        match others.split_first() {
            None => return false,
            Some((other, rest)) => {
                if !same(*value, *other) {
                    return false;
                }
                others = rest;
            }
        }
        values = more;
    }
    others.is_empty()
}

/// Whether two written items are the same.
#[tactic(auto, using(run_types::proofs::Laws::same_value))]
pub fn same_item(left: Item, right: Item) -> bool
    ensures is { result ≡ is_same_item left right }
    ensures same { result ≡ true → left ≡ right }
{
    match (left, right) {
        (Item::Value(value), Item::Value(other)) => same(value, other),
        (Item::Text(text), Item::Text(other)) => text.0 == other.0,
        _ => false,
    }
}

/// Whether two errors are the same.
#[tactic(auto, using(run_types::proofs::Laws::same_error))]
pub fn same_error(left: Error, right: Error) -> bool
    ensures is { result ≡ (error_number left == error_number right) }
    ensures same { result ≡ true → left ≡ right }
{
    matches!(
        (left, right),
        (Error::NilDestination, Error::NilDestination)
            | (Error::NilOperand, Error::NilOperand)
            | (Error::Overflow, Error::Overflow)
            | (Error::ZeroDivisor, Error::ZeroDivisor)
            | (Error::NoOpenGuard, Error::NoOpenGuard)
    )
}
