//! Theorems that give the record of a run by cases: of the configuration
//! before the first event, and of the effect of the event.
ghost use Rattle.std.specs.Prelude.{◌≡◌, ℕ, ◌+◌, List, [], ◌∷◌, ◌++◌, replicate, Some, None, true, false};
ghost use Rattle.run_types.specs.declared.types.Label.{Label};
ghost use Rattle.run_types.specs.declared.types.What.{What};
ghost use Rattle.run_types.specs.declared.types.What.TheVariants as W;
ghost use Rattle.run_types.specs.declared.types.Event.{Event};
ghost use Rattle.run_types.specs.declared.types.FullKind.{FullKind};
ghost use Rattle.run_types.specs.declared.types.End.TheVariants as E;
ghost use Rattle.run_types.specs.declared.types.Line.TheVariants as R;
ghost use Rattle.run_types.specs.declared.types.Placement.{Placement};
ghost use Rattle.mesh_semantics.specs.Language.{Language};
ghost use Rattle.mesh_semantics.specs.Config.{Config};
ghost use Rattle.mesh_semantics.specs.Delay.{Delay, no_delay, no_delay_on_wires};
ghost use Rattle.mesh_semantics.specs.Act.{Acts, Full, Nothing, act, is_quiet};
ghost use Rattle.mesh_semantics.specs.Record.{Record, labels, record_from, shown, start};
ghost use Rattle.mesh_semantics.specs.RecordOf.{record_of, record_on_wires};

/// The record from a configuration is given by cases: all is quiet, no event is left, or the effect of the first event.
/// If all is quiet, it ends `Quiet`, whatever events are left. Otherwise it ends `Schedule` if no event is left.
/// If the first event does something, its line has the number `done + 1`, and the record after that event follows.
/// If the event would exceed a limit, the record ends `Full`. An ended record keeps its last configuration and delay.
/// An event that answers nothing ends the record without an end line. No event of a sound configuration does so.
pub fn a_record_by_cases<S>()
    ensures quiet { (g : Language S) (l : Placement) (q done : ℕ) (c : Config S) (d : Delay) (es : List Event) → (all_is_quiet : is_quiet g c d ≡ true)
        → record_from g l q c d done es ≡ record { lines = R.End (E.Quiet done) ∷ []; last = c; delay = d } }
    ensures schedule_over { (g : Language S) (l : Placement) (q done : ℕ) (c : Config S) (d : Delay) → (something_can_go_on : is_quiet g c d ≡ false)
        → record_from g l q c d done [] ≡ record { lines = R.End (E.Schedule done) ∷ []; last = c; delay = d } }
    ensures one_line { (g : Language S) (l : Placement) (q done : ℕ) (c f : Config S) (d k : Delay) (e : Event) (es : List Event) (what : What) (rest : Record S)
        → (something_can_go_on : is_quiet g c d ≡ false) → (what_happens : act g l q c d e ≡ Acts what f k) → (behind_it : record_from g l q f k (done + 1) es ≡ rest)
        → record_from g l q c d done (e ∷ es) ≡ record { lines = R.Event (done + 1) e what ∷ rest.lines; last = rest.last; delay = rest.delay } }
    ensures full { (g : Language S) (l : Placement) (q done n : ℕ) (c : Config S) (d : Delay) (e : Event) (es : List Event) (kind : FullKind)
        → (something_can_go_on : is_quiet g c d ≡ false) → (a_limit_would_be_passed : act g l q c d e ≡ Full kind n)
        → record_from g l q c d done (e ∷ es) ≡ record { lines = R.End (E.Full kind n done) ∷ []; last = c; delay = d } }
    ensures nothing { (g : Language S) (l : Placement) (q done : ℕ) (c : Config S) (d : Delay) (e : Event) (es : List Event)
        → (something_can_go_on : is_quiet g c d ≡ false) → (nothing_to_be_done : act g l q c d e ≡ Nothing)
        → record_from g l q c d done (e ∷ es) ≡ record { lines = []; last = c; delay = d } }
{}

/// The labels of a record are those of its transitions, in order.
/// An event with one transition, or with several local transitions of an object, adds its label once for each.
/// A delay or an idle event adds none.
pub fn labels_are_those_of_transitions<S>()
    ensures transition { (g : Language S) (l : Placement) (q done times : ℕ) (c f : Config S) (d k : Delay) (e : Event) (es : List Event) (label : Label)
        → (something_can_go_on : is_quiet g c d ≡ false) → (a_transition : act g l q c d e ≡ Acts (W.Step label times) f k)
        → labels (record_from g l q c d done (e ∷ es)).lines ≡ replicate times label ++ labels (record_from g l q f k (done + 1) es).lines }
    ensures delay { (g : Language S) (l : Placement) (q done : ℕ) (c f : Config S) (d k : Delay) (e : Event) (es : List Event) (what : What)
        → (something_can_go_on : is_quiet g c d ≡ false) → (a_delay : act g l q c d e ≡ Acts what f k) → (no_transition : shown what ≡ [])
        → labels (record_from g l q c d done (e ∷ es)).lines ≡ labels (record_from g l q f k (done + 1) es).lines }
    ensures ended { (g : Language S) (l : Placement) (q done : ℕ) (c : Config S) (d : Delay) (es : List Event) → (all_is_quiet : is_quiet g c d ≡ true)
        → labels (record_from g l q c d done es).lines ≡ [] }
{}

/// An event whose line shows no transition does not change the configuration, only the delay.
pub fn a_delay_leaves_the_configuration<S>()
    ensures { (g : Language S) (l : Placement) (q : ℕ) (c f : Config S) (d k : Delay) (e : Event) (what : What)
        → (a_delay : act g l q c d e ≡ Acts what f k) → (no_transition : shown what ≡ []) → f ≡ c }
{}

/// The record of a language over a schedule is the record from its start, with nothing under way and no event done.
/// If there is no start, the record has no lines.
pub fn a_record_begins_at_the_start<S>()
    ensures links { (g : Language S) (l : Placement) (q : ℕ) (c : Config S) (es : List Event) → start g l ≡ Some c
        → record_of g l q es ≡ record_from g l q c no_delay 0 es }
    ensures wires { (g : Language S) (l : Placement) (q : ℕ) (c : Config S) (es : List Event) → start g l ≡ Some c
        → record_on_wires g l q es ≡ record_from g l q c no_delay_on_wires 0 es }
    ensures none { (g : Language S) (l : Placement) (q : ℕ) (es : List Event) → start g l ≡ None → (record_of g l q es).lines ≡ [] }
{}
