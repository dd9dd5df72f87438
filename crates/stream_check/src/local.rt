//! Local transitions of the stepper's objects.
ghost use Rattle.std.specs.Prelude.{◌≡◌, ◌<◌, ◌≤◌, Some, None, IfOk, false, map, replicate};
ghost use Rattle.pool_relation.specs.Transition.{run, transition};
ghost use Rattle.pool_semantics.specs.PlainOf.{configuration_of, program_tree, is_spent};
ghost use Rattle.stream_check.specs.Filled.{most_filled};

use pool_semantics::{Plain, Refuse};
use run_types::Label;
use std::alloc::{AllocError, Global};

/// The largest number of local transitions of one object that are filled in at one place.
pub const MOST_FILLED: u32 = 1_000_000;

/// Makes the local transitions of an object, at most `MOST_FILLED`. Returns their number. An error means out of memory.
pub fn make_local(plain: &mut Plain<'_>, object: u32) -> Result<u32, AllocError>
    ensures program { program_tree plain.new ≡ program_tree plain.old }
    ensures going_on { IfOk result (λ _. is_spent plain.old ≡ false → is_spent plain.new ≡ false) }
    ensures made { IfOk result (λ k. run (program_tree plain.old) (configuration_of plain.old) (replicate k (Label.Local object)) ≡ Some (configuration_of plain.new)) }
    ensures most { IfOk result (λ k. k ≤ most_filled) }
    ensures rests { IfOk result (λ k. k < most_filled → transition (program_tree plain.old) (configuration_of plain.new) (Label.Local object) ≡ None) }
{
    let label = Label::Local { object };
    let mut made = 0;
    while made < MOST_FILLED {
        match plain.apply(&label) {
            Ok(()) => made += 1,
            Err(Refuse::NotPossible { .. }) => return Ok(made),
            Err(Refuse::Memory) => return Err(AllocError),
        }
    }
    Ok(made)
}

/// The names of all objects. An error means out of memory.
pub fn objects_of(alloc: Global, plain: &Plain<'_>) -> Result<Vec<u32>, AllocError>
    ensures { IfOk result (λ os. os.items ≡ map (λ e. e.0) (configuration_of plain.now).objects) }
{
    plain.state().objects.keys().copied().collect(alloc)
}
