//! A theorem about the number of local transitions in a turn of an object, and the configuration after them.
ghost use Rattle.std.specs.Prelude.{◌≡◌, ℕ, Some};
ghost use Rattle.run_types.specs.declared.types.Placement.{Placement};
ghost use Rattle.mesh_semantics.specs.Kind.{Local};
ghost use Rattle.mesh_semantics.specs.Language.{Language};
ghost use Rattle.mesh_semantics.specs.Config.{Config};
ghost use Rattle.mesh_semantics.specs.Delay.{Delay};
ghost use Rattle.mesh_semantics.specs.Act.{local_steps, local_turn, object_turn, step_count};
ghost use Rattle.adequacy.specs.TurnSteps.{going_on};

/// A turn makes local transitions one after another, until none is
/// possible, the frames would exceed the limit, or the quantum is used up.
/// This gives their number and the configuration after them, and
/// so the whole turn of an object that is at a local transition.
pub fn a_turn_goes_on_while_it_can<S>()
    ensures count { (g : Language S) (l : Placement) (q n o : ℕ) (c : Config S) → step_count g l q n o c ≡ (going_on g l n o q c).0 }
    ensures configuration { (g : Language S) (l : Placement) (q n o : ℕ) (c : Config S) → local_steps g l n o (step_count g l q n o c) c ≡ Some (going_on g l n o q c).1 }
    ensures turn { (g : Language S) (l : Placement) (q n o : ℕ) (c : Config S) (d : Delay)
        → object_turn g l q c d n o Local ≡ local_turn n o d (going_on g l n o q c).0 (Some (going_on g l n o q c).1) }
{}
