//! Theorems about object code as a language of objects. Each is the contract of a function with an empty body.
ghost use Rattle.std.specs.Prelude.{◌≡◌, ◌≢◌, ℕ, List, length, Some, None};
ghost use Rattle.run_types.specs.declared.types.Event.{Event};
ghost use Rattle.run_types.specs.declared.types.Line.TheVariants as R;
ghost use Rattle.run_types.specs.declared.types.Placement.{Placement};
ghost use Rattle.run_types.specs.declared.types.What.{What};
ghost use Rattle.code_semantics.specs.declared.unit.Unit.{Unit as Code};
ghost use Rattle.code_semantics.specs.Proper.{IsProper};
ghost use Rattle.code_semantics.specs.Suits.{Suits};
ghost use Rattle.mesh_semantics.specs.Act.{Acts, act};
ghost use Rattle.mesh_semantics.specs.Config.{Config};
ghost use Rattle.mesh_semantics.specs.Delay.{Delay, no_delay};
ghost use Rattle.mesh_semantics.specs.FitFor.{FitFor};
ghost use Rattle.mesh_semantics.specs.Lawful.{Lawful};
ghost use Rattle.mesh_semantics.specs.Record.{start};
ghost use Rattle.mesh_semantics.specs.RecordOf.{record_of, record_on_wires};
ghost use Rattle.mesh_semantics.specs.Sound.{IsSound};
ghost use Rattle.run_types.specs.PathFacts.{In};
ghost use Rattle.mesh_semantics.specs.Requests.{AreServed, Requests, KeepsClassAndFault, KnownNames};
ghost use Rattle.mesh_of_code.specs.Coded.{Placed, coded};
ghost use Rattle.mesh_of_code.specs.Known.{HasLine, IsKnownIn};
ghost use Rattle.mesh_of_code.specs.CodeInvariant.{IsOfCode};

/// The code of a proper unit is a lawful language of objects.
/// Its invariant is `IsOfCode`, that a configuration is of the unit: each transition keeps it.
pub fn code_is_lawful()
    ensures { (u : Code) → IsProper u → Lawful (coded u) (IsOfCode u) }
{}

/// The code of a unit meets the requirements of a node on its language of objects.
/// So a node can keep the numbers of requests apart from its
/// objects, and it knows each name in a packet that it receives.
pub fn code_answers_requests()
    ensures requests { (u : Code) → Requests (coded u) (IsOfCode u) }
    ensures class_and_fault { (u : Code) → KeepsClassAndFault (coded u) }
    ensures names { (u : Code) → IsProper u → KnownNames (coded u) (IsOfCode u) }
    ensures served { (u : Code) → AreServed (coded u) (IsOfCode u) }
{}

/// A proper unit has a start on each placement. It is of the unit, and its root has no method under way.
pub fn code_starts()
    ensures there { (u : Code) (l : Placement) → IsProper u → (c : Config Placed) × (start (coded u) l ≡ Some c) }
    ensures of_unit { (u : Code) (l : Placement) (c : Config Placed) → IsProper u → start (coded u) l ≡ Some c → IsOfCode u c }
    ensures root { (u : Code) (x : Placed) → (coded u).root ≡ Some x → (coded u).frames x ≡ 0 }
{}

/// The code can make an object of each class of the unit.
pub fn each_class_is_made()
    ensures { (u : Code) (k : ℕ) → In k (coded u).classes → (coded u).made k ≢ None }
{}

/// A placement that suits a unit fits its code.
pub fn suiting_placements_fit()
    ensures { (u : Code) (l : Placement) → Suits l u → FitFor (coded u) l }
{}

/// The start of a proper unit on a fitting placement is sound, with nothing under way.
pub fn the_start_is_sound()
    ensures { (u : Code) (l : Placement) (c : Config Placed) → IsProper u → FitFor (coded u) l → start (coded u) l ≡ Some c → IsSound (coded u) (IsOfCode u) l c no_delay }
{}

/// Each class, method or string that a line of a run names is in the unit's table of names.
/// This holds for each event from a sound configuration, and for each event line of a record, with or without wires.
pub fn each_line_is_known()
    ensures event { (u : Code) (l : Placement) (q : ℕ) (c : Config Placed) (d : Delay) (e : Event) (what : What) (c' : Config Placed) (d' : Delay) → IsProper u
        → FitFor (coded u) l → IsSound (coded u) (IsOfCode u) l c d → act (coded u) l q c d e ≡ Acts what c' d' → IsKnownIn (length u.names) what }
    ensures record_lines { (u : Code) (l : Placement) (q : ℕ) (es : List Event) (number : ℕ) (e : Event) (what : What) → IsProper u → FitFor (coded u) l
        → HasLine (R.Event number e what) (record_of (coded u) l q es).lines → IsKnownIn (length u.names) what }
    ensures record_lines_on_wires { (u : Code) (l : Placement) (q : ℕ) (es : List Event) (number : ℕ) (e : Event) (what : What) → IsProper u → FitFor (coded u) l
        → HasLine (R.Event number e what) (record_on_wires (coded u) l q es).lines → IsKnownIn (length u.names) what }
{}
