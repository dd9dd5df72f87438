//! Laws of the definitions: each is the contract of a function with an empty body.
ghost use Rattle.std.specs.Prelude.{◌≡◌, ◌<◌, ℕ, true, false, ◌==◌};
ghost use Rattle.search_laws.specs.Renamed.{renamed_object};
ghost use Rattle.stepper_objects.specs.ObjectStates.{thing_object};
ghost use Rattle.stepper_objects.specs.declared.object_state.ObjectState.{ObjectState};
ghost use Rattle.known_names.specs.OtherNames.{object_is_other};

/// If the state of an object names only objects with a name below n other than b, it stays the same under other names
/// of all other objects.
pub fn what_is_not_known_may_be_renamed()
    ensures { (n b : ℕ) (t : ObjectState) (g : ℕ → ℕ) → object_is_other n b t ≡ true → ((q : ℕ) → q < n → (q == b) ≡ false → g q ≡ q)
        → renamed_object g (thing_object t) ≡ thing_object t }
{}
