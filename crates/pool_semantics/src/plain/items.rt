//! Equality of written items and of errors.
ghost use Rattle.std.specs.Prelude.{◌≡◌, ◌==◌};
ghost use Rattle.run_types.specs.Same.{is_same_item, error_number};

use operators::same;
use run_types::{Error, Item};

/// Whether two written items are the same.
pub fn same_item(left: Item, right: Item) -> bool
    ensures { result ≡ is_same_item left right }
{
    match (left, right) {
        (Item::Value(v), Item::Value(w)) => same(v, w),
        (Item::Text(s), Item::Text(t)) => s.0 == t.0,
        _ => false,
    }
}

/// Whether two errors are the same.
pub fn same_error(left: Error, right: Error) -> bool
    ensures { result ≡ (error_number left == error_number right) }
{
    matches!(
        (left, right),
        (Error::NilDestination, Error::NilDestination)
            | (Error::NilOperand, Error::NilOperand)
            | (Error::Overflow, Error::Overflow)
            | (Error::ZeroDivisor, Error::ZeroDivisor)
            | (Error::NoOpenGuard, Error::NoOpenGuard)
    )
}
