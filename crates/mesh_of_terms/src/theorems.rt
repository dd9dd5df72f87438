//! The theorems about terms on placed machines, in terms of the transition relation. Each is the contract of a
//! function with an empty body. A program is checked if it has no class faults and its trees are those of a text
//! (`is_written`).
ghost use Rattle.std.specs.Prelude.{◌≡◌, ◌≢◌, ◌++◌, ℕ, List, [], ◌∷◌, Some, None, true, IsTrue, slice_get};
ghost use Rattle.pool_syntax.specs.Terms.{ClassTree, ProgramTree};
ghost use Rattle.pool_syntax.specs.Typing.{faults};
ghost use Rattle.run_types.specs.declared.types.Event.{Event};
ghost use Rattle.run_types.specs.declared.types.Event.TheVariants as Ev;
ghost use Rattle.run_types.specs.declared.types.What.{What};
ghost use Rattle.run_types.specs.declared.types.What.TheVariants as W;
ghost use Rattle.run_types.specs.declared.types.WireAct.{WireAct};
ghost use Rattle.run_types.specs.declared.types.Line.{Line};
ghost use Rattle.run_types.specs.declared.types.Line.TheVariants as R;
ghost use Rattle.run_types.specs.declared.types.Label.{Label};
ghost use Rattle.run_types.specs.declared.types.Placement.{Placement};
ghost use Rattle.pool_relation.specs.Action.{Object};
ghost use Rattle.pool_relation.specs.Configuration.{Configuration};
ghost use Rattle.pool_relation.specs.Transition as X;
ghost use Rattle.pool_relation.specs.Transition.{transition, run, last_class};
ghost use Rattle.pool_syntax.specs.Written.{is_written};
ghost use Rattle.mesh_semantics.specs.Config.{Config};
ghost use Rattle.mesh_semantics.specs.Moves.{move, moves};
ghost use Rattle.mesh_semantics.specs.Delay.{Delay, no_delay, no_delay_on_wires};
ghost use Rattle.mesh_semantics.specs.Act.{Acts, Nothing, act, class_place, is_quiet, ready_at};
ghost use Rattle.run_types.specs.Asks.{EachAnswersPost};
ghost use Rattle.mesh_semantics.specs.Record.{last_place, root_name, start};
ghost use Rattle.mesh_semantics.specs.RecordOf.{record_of, record_on_wires};
ghost use Rattle.mesh_semantics.specs.Cycles.{IsCycle, Contained, called_by, cycles};
ghost use Rattle.mesh_semantics.specs.Sound.{IsSound};
ghost use Rattle.mesh_semantics.specs.Wired.{KeepsWires, NothingComes, NothingDone};
ghost use Rattle.mesh_semantics.specs.FitFor.{FitFor};
ghost use Rattle.mesh_semantics.specs.Lawful.{Lawful};
ghost use Rattle.mesh_of_terms.specs.Terms.{class_names, terms, plain};
ghost use Rattle.mesh_of_terms.specs.OneEvent.{as_plain, IsIdleAt, AfterEvent};
ghost use Rattle.mesh_of_terms.specs.LineOf.{IsMadeAt};
ghost use Rattle.mesh_of_terms.specs.RunOf.{TypedTerms, IsRunFrom};

/// The language of terms has the transitions, the runs and the start of the transition relation.
pub fn terms_move_by_the_relation()
    ensures transition { (p : ProgramTree) (c : Config Object) (lab : Label) → as_plain (move (terms p) c lab) ≡ transition p (plain c) lab }
    ensures run { (p : ProgramTree) (c : Config Object) (labs : List Label) → as_plain (moves (terms p) c labs) ≡ run p (plain c) labs }
    ensures start { (p : ProgramTree) (l : Placement) → as_plain (start (terms p) l) ≡ X.start p (root_name l) }
{}

/// The terms of a checked program are a lawful language; the kept property is that a configuration is typed.
pub fn terms_are_lawful()
    ensures { (p : ProgramTree) → faults p ≡ [] → IsTrue (is_written p) → Lawful (terms p) (TypedTerms p) }
{}

/// From a sound configuration the labels of an event's line are a run to the configuration after the event, which is
/// sound with its delay. A line without labels leaves the configuration unchanged.
pub fn each_event_keeps_sound()
    ensures { (p : ProgramTree) (l : Placement) (q : ℕ) (c : Config Object) (d : Delay) (e : Event) → faults p ≡ [] → IsTrue (is_written p) → FitFor (terms p) l
        → IsSound (terms p) (TypedTerms p) l c d → AfterEvent p l c (act (terms p) l q c d e) }
{}

/// Each event of a sound configuration answers with a line or a limit.
pub fn each_event_answers()
    ensures { (p : ProgramTree) (l : Placement) (q : ℕ) (c : Config Object) (d : Delay) (e : Event) → faults p ≡ [] → IsTrue (is_written p) → FitFor (terms p) l
        → IsSound (terms p) (TypedTerms p) l c d → act (terms p) l q c d e ≢ Nothing }
{}

/// A sound configuration in which all is quiet has no transition.
pub fn quiet_has_no_transition()
    ensures { (p : ProgramTree) (l : Placement) (c : Config Object) (d : Delay) (lab : Label) → IsSound (terms p) (TypedTerms p) l c d
        → is_quiet (terms p) c d ≡ true → transition p (plain c) lab ≡ None }
{}

/// The record of a checked program shows a run of the transition relation from the start: its labels lead to its last
/// configuration, which is sound with its delay. It has event lines and then one end line. After each prefix of the
/// labels the configuration is typed and no object goes wrong. Each event line is that of the act of its event at a
/// sound configuration. The acts of the lines before it lead to that configuration. If the line is idle, its event had
/// nothing to do there. If the record ends quiet, no label is possible. All of this holds over wires too; at the end each wire
/// has handed out a prefix of the packets that entered.
pub fn records_are_runs()
    ensures records { (p : ProgramTree) (l : Placement) (q : ℕ) (es : List Event) (c : Configuration) → faults p ≡ [] → IsTrue (is_written p) → FitFor (terms p) l
        → X.start p (root_name l) ≡ Some c → IsRunFrom p l q c no_delay (record_of (terms p) l q es) }
    ensures on_wires { (p : ProgramTree) (l : Placement) (q : ℕ) (es : List Event) (c : Configuration) → faults p ≡ [] → IsTrue (is_written p) → FitFor (terms p) l
        → X.start p (root_name l) ≡ Some c → IsRunFrom p l q c no_delay_on_wires (record_on_wires (terms p) l q es) }
    ensures wires { (p : ProgramTree) (l : Placement) (q : ℕ) (es : List Event) → KeepsWires (record_on_wires (terms p) l q es).delay }
{}

/// Each line of the record of a checked program that answers a request has the number of the line that posted this
/// request. That number is above 0, and that line names the same object and the same class or call.
pub fn each_line_answers_its_post()
    ensures answers { (p : ProgramTree) (l : Placement) (q : ℕ) (es : List Event) → faults p ≡ [] → IsTrue (is_written p) → FitFor (terms p) l
        → EachAnswersPost (record_of (terms p) l q es).lines }
    ensures on_wires { (p : ProgramTree) (l : Placement) (q : ℕ) (es : List Event) → faults p ≡ [] → IsTrue (is_written p) → FitFor (terms p) l
        → EachAnswersPost (record_on_wires (terms p) l q es).lines }
{}

/// An event has an idle line exactly if it has nothing to do, and then it changes nothing. At a turn no object of the
/// node is ready. At a move nothing comes off the link. At an event of a wire nothing is to be done.
pub fn idle_is_nothing()
    ensures turn { (p : ProgramTree) (l : Placement) (q : ℕ) (c e : Config Object) (d f : Delay) (n : ℕ) → act (terms p) l q c d (Ev.Turn n) ≡ Acts W.Idle e f
        → (ready_at (terms p) c d n ≡ []) × (e ≡ c) × (f ≡ d) }
    ensures link { (p : ProgramTree) (l : Placement) (q : ℕ) (c e : Config Object) (d f : Delay) (a b : ℕ) → KeepsWires d → act (terms p) l q c d (Ev.Link a b) ≡ Acts W.Idle e f
        → NothingComes d.wires d (a, b) × (e ≡ c) × (f ≡ d) }
    ensures wire { (p : ProgramTree) (l : Placement) (q : ℕ) (c e : Config Object) (d f : Delay) (w : WireAct) (a b : ℕ) → act (terms p) l q c d (Ev.Wire w a b) ≡ Acts W.Idle e f
        → NothingDone d.wires w (a, b) × (e ≡ c) × (f ≡ d) }
    ensures idle_turn { (p : ProgramTree) (l : Placement) (q : ℕ) (c : Config Object) (d : Delay) (n : ℕ) → ready_at (terms p) c d n ≡ []
        → act (terms p) l q c d (Ev.Turn n) ≡ Acts W.Idle c d }
    ensures idle_link { (p : ProgramTree) (l : Placement) (q : ℕ) (c : Config Object) (d : Delay) (a b : ℕ) → NothingComes d.wires d (a, b)
        → act (terms p) l q c d (Ev.Link a b) ≡ Acts W.Idle c d }
    ensures idle_wire { (p : ProgramTree) (l : Placement) (q : ℕ) (c : Config Object) (d : Delay) (w : WireAct) (a b : ℕ) → NothingDone d.wires w (a, b)
        → act (terms p) l q c d (Ev.Wire w a b) ≡ Acts W.Idle c d }
{}

/// `cycles` lists every cycle of calls, and nothing else.
pub fn cycles_are_all_and_no_other()
    ensures all { (p : ProgramTree) (c : Config Object) (d : Delay) (ns : List ℕ) → IsCycle (called_by (terms p) c d) ns → Contained ns (cycles (terms p) c d) }
    ensures no_other { (p : ProgramTree) (c : Config Object) (d : Delay) (ns : List ℕ) → Contained ns (cycles (terms p) c d) → IsCycle (called_by (terms p) c d) ns }
{}

/// In a placement that fits, the last place, which gives the root its node, is the place of the root's class.
pub fn root_is_placed_by_its_class()
    ensures { (p : ProgramTree) (l : Placement) (k : ClassTree) → faults p ≡ [] → FitFor (terms p) l → last_class p ≡ Some k
        → last_place l.places ≡ slice_get l.places (class_place (class_names p) k.name.name.0) }
{}

/// Each line of a record is that of the act of its event at a sound configuration. The acts and the labels of the
/// lines before it lead to that configuration. If the line is idle, no object of its node was ready there, nothing
/// came off its link, or nothing was to be done on its wire.
pub fn each_line_is_made_where_the_lines_before_lead()
    ensures line { (p : ProgramTree) (l : Placement) (q : ℕ) (es : List Event) (c : Configuration) (before behind : List Line) (n : ℕ) (e : Event) (what : What)
        → faults p ≡ [] → IsTrue (is_written p) → FitFor (terms p) l → X.start p (root_name l) ≡ Some c
        → before ++ (R.Event n e what ∷ behind) ≡ (record_of (terms p) l q es).lines → IsMadeAt p l q c no_delay before e what }
    ensures on_wires { (p : ProgramTree) (l : Placement) (q : ℕ) (es : List Event) (c : Configuration) (before behind : List Line) (n : ℕ) (e : Event) (what : What)
        → faults p ≡ [] → IsTrue (is_written p) → FitFor (terms p) l → X.start p (root_name l) ≡ Some c
        → before ++ (R.Event n e what ∷ behind) ≡ (record_on_wires (terms p) l q es).lines → IsMadeAt p l q c no_delay_on_wires before e what }
    ensures idle { (p : ProgramTree) (l : Placement) (q : ℕ) (es : List Event) (c : Configuration) (before behind : List Line) (n : ℕ) (e : Event)
        → faults p ≡ [] → IsTrue (is_written p) → FitFor (terms p) l → X.start p (root_name l) ≡ Some c
        → before ++ (R.Event n e W.Idle ∷ behind) ≡ (record_of (terms p) l q es).lines → IsIdleAt p l c before e }
    ensures idle_on_wires { (p : ProgramTree) (l : Placement) (q : ℕ) (es : List Event) (c : Configuration) (before behind : List Line) (n : ℕ) (e : Event)
        → faults p ≡ [] → IsTrue (is_written p) → FitFor (terms p) l → X.start p (root_name l) ≡ Some c
        → before ++ (R.Event n e W.Idle ∷ behind) ≡ (record_on_wires (terms p) l q es).lines → IsIdleAt p l c before e }
{}
