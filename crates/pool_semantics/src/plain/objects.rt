//! Changes of the objects by their names.
ghost use Rattle.std.specs.Prelude.{◌≡◌, ℕ, Some, None, OnOk, OnErr};
ghost use Rattle.std.specs.Ordering.{nat_cmp};
ghost use Rattle.std.specs.FinMap.{put};
ghost use Rattle.std.specs.BTreeMap.{get, IsUnchanged};
ghost use Rattle.pool_syntax.specs.TreeOf.{class_tree};
ghost use Rattle.pool_relation.specs.Transition.{new_object};
ghost use Rattle.stepper_objects.specs.declared.object_state.ObjectState.{ObjectState};
ghost use Rattle.object_acts.specs.Acts.{changed, Fits};
ghost use Rattle.stepper_terms.specs.Arguments.{now_args};
ghost use Rattle.stepper_objects.specs.ObjectStates.{thing_object, things};

use object_acts::change::Change;
use pool_syntax::ClassDecl;
use std::alloc::{AllocError, Global};
use std::collections::BTreeMap;
use stepper_objects::object_state::ObjectState;

/// Changes the object of this name, if it exists. Reports `AllocError` if memory runs out; other objects are
/// unchanged.
#[tactic(auto, using(crate::proofs::MapAbstraction::things_set, crate::proofs::MapAbstraction::others_set))]
pub fn update<'a>(
    alloc: Global,
    objects: &mut BTreeMap<u32, ObjectState<'a>>,
    name: u32,
    change: &Change<'a>,
) -> Result<(), AllocError>
    requires { (t : ObjectState) → get nat_cmp objects.old name ≡ Some t → Fits t.work.calls.items t.work.next change.now }
    ensures others { (q : ℕ) → (q ≡ name → ⊥) → get nat_cmp objects.new q ≡ get nat_cmp objects.old q }
    ensures changed { (t : ObjectState) → get nat_cmp objects.old name ≡ Some t
        → OnOk result (things objects.new.entries ≡ put nat_cmp name (changed (thing_object t) (now_args t.work.next) change.now) (things objects.old.entries)) }
{
    match objects.get_mut(&name) {
        None => Ok(()),
        Some(thing) => thing.change(alloc, change),
    }
}

/// Adds a new object of this class, under a name that no object has. Reports `AllocError` if memory runs out; the
/// objects are then unchanged.
pub fn add<'a>(
    alloc: Global,
    objects: &mut BTreeMap<u32, ObjectState<'a>>,
    name: u32,
    class: &'a ClassDecl,
) -> Result<(), AllocError>
    requires { get nat_cmp objects.old name ≡ None }
    ensures added { OnOk result (things objects.new.entries ≡ put nat_cmp name (new_object (class_tree class.now)) (things objects.old.entries)) }
    ensures kept { OnErr result (IsUnchanged objects.old objects.new) }
{
    match objects.entry(name) {
        Err(_) => Err(AllocError),
        Ok(place) => match place.or_try_insert_with(|| ObjectState::make(alloc, class)) {
            Err(error) => Err(error),
            Ok(_added) => Ok(()),
        },
    }
}
