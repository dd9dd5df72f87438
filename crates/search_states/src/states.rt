//! Equality of object states.
ghost use Rattle.std.specs.Prelude.{◌≡◌, true};
ghost use Rattle.search_states.specs.Equal.{EqualThing};
ghost use Rattle.stepper_objects.specs.ObjectStates.{thing_object};

use crate::calls::{same_bindings, same_work};
use run_types::Error;
use stepper_objects::object_state::ObjectState;

fn same_error(left: Error, right: Error) -> bool
    ensures same { result ≡ true → left ≡ right }
    ensures different { left ≡ right → result ≡ true }
{
    left as u8 == right as u8
}

fn same_fault(left: Option<Error>, right: Option<Error>) -> bool
    ensures same { result ≡ true → left ≡ right }
    ensures different { left ≡ right → result ≡ true }
{
    match (left, right) {
        (Some(error), Some(other)) => same_error(error, other),
        (None, None) => true,
        _ => false,
    }
}

/// Whether two objects are in the same state. `true` is always correct.
/// `false` is possible for equal states that are represented by different parts.
pub fn same(left: &ObjectState<'_>, right: &ObjectState<'_>) -> bool
    ensures same { result ≡ true → thing_object left.now ≡ thing_object right.now }
    ensures different { EqualThing left.now right.now → result ≡ true }
{
    left.class == right.class
        && same_fault(left.fault, right.fault)
        && same_bindings(left.vars.as_slice(), right.vars.as_slice())
        && same_work(&left.work, &right.work)
}
