//! The least stamp of some methods.
ghost use Rattle.std.specs.Prelude.{◌≡◌, ◌==◌, ◌||◌, ℕ, Bool};
ghost use Rattle.std.specs.BTreeSet.{BTreeSet as PairSet};
ghost use Rattle.run_types.specs.Tables.{Pair};
ghost use Rattle.pool_relation.specs.Transition.{names_method};
ghost use Rattle.message_queue.specs.Stamps.{IsLeastFor};

use pool_syntax::Named;
use run_types::NameId;
use std::collections::BTreeSet;

/// The least stamp of this method. None if there is none.
pub(crate) fn stamp_of(index: &BTreeSet<(u32, u64)>, method: NameId) -> Option<u64>
    ensures { IsLeastFor (λ m. m == method.0) index.now result }
{
    match index.range((method.0, 0)..).next() {
        Some(place) => {
            if place.0 == method.0 {
                Some(place.1)
            } else {
                None
            }
        }
        None => None,
    }
}

/// The lesser of two stamps, or the one that is there.
fn lesser(left: Option<u64>, right: Option<u64>) -> Option<u64>
    ensures { (p q : ℕ → Bool) (index : PairSet Pair) → IsLeastFor p index left → IsLeastFor q index right → IsLeastFor (λ m. p m || q m) index result }
{
    match left {
        None => right,
        Some(a) => match right {
            None => left,
            Some(b) => { if b < a { right } else { left } }
        },
    }
}

/// The least stamp of these methods. None if there is none.
pub(crate) fn stamp_named(index: &BTreeSet<(u32, u64)>, names: &[Named]) -> Option<u64>
    ensures { IsLeastFor (names_method names.now) index.now result }
{
    let mut least = None;
    for named in names {
        least = lesser(least, stamp_of(index, named.name));
    }
    least
}
