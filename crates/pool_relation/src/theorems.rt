//! The theorems about the relation. Each is the contract of a function with an empty body. A program is checked if it
//! has no class faults and its trees are those of a text (`is_written`).
ghost use Rattle.std.specs.Prelude.{◌≡◌, ◌≢◌, ◌⊎◌, ◌++◌, ℕ, List, [], Some, None, false, IsTrue};
ghost use Rattle.pool_syntax.specs.Terms.{ProgramTree};
ghost use Rattle.pool_syntax.specs.Typing.{faults};
ghost use Rattle.run_types.specs.declared.types.Label.{Label};
ghost use Rattle.pool_relation.specs.Action as A;
ghost use Rattle.pool_relation.specs.Action.{Object, action};
ghost use Rattle.pool_relation.specs.Configuration.{Configuration, object_of};
ghost use Rattle.pool_relation.specs.Ready.{is_ready};
ghost use Rattle.pool_relation.specs.Alone.{alone};
ghost use Rattle.pool_relation.specs.Transition.{transition, run, start};
ghost use Rattle.pool_relation.specs.Typed.{GoesWrong, Typed};
ghost use Rattle.pool_syntax.specs.Written.{is_written};
ghost use Rattle.pool_relation.specs.Progress.{HasOwnTransition};
ghost use Rattle.pool_relation.specs.Communication.{IsCommunication};

/// A label that is possible in a configuration determines the configuration after it.
pub fn label_determines_its_transition()
    ensures { (p : ProgramTree) (c d e : Configuration) (l : Label) → transition p c l ≡ Some d → transition p c l ≡ Some e → d ≡ e }
{}

/// Runs join: if the labels ls lead from c to d, then ls and after them ms lead from c to the end of ms from d. If the
/// labels ls are no run, the joined labels are no run.
pub fn runs_join()
    ensures joined { (p : ProgramTree) (c d : Configuration) (ls ms : List Label) → run p c ls ≡ Some d → run p c (ls ++ ms) ≡ run p d ms }
    ensures none { (p : ProgramTree) (c : Configuration) (ls ms : List Label) → run p c ls ≡ None → run p c (ls ++ ms) ≡ None }
{}

/// A configuration of one object without messages has no transition if the object has met an error or is not ready.
pub fn not_ready_has_no_transition()
    ensures { (p : ProgramTree) (root : ℕ) (x : Object) (l : Label) → (x.fault ≡ None → is_ready (action p root x) ≡ false) → transition p (alone root x) l ≡ None }
{}

/// A program with a class has a start, and the start of a checked program is typed.
pub fn start_is_typed()
    ensures typed { (p : ProgramTree) (n : ℕ) (c : Configuration) → faults p ≡ [] → IsTrue (is_written p)
        → start p n ≡ Some c → Typed p c }
    ensures starts { (p : ProgramTree) (n : ℕ) → p ≢ [] → start p n ≢ None }
{}

/// Each transition and each run of a checked program keeps a configuration typed.
pub fn typed_is_kept()
    ensures by_transition { (p : ProgramTree) (c d : Configuration) (l : Label) → faults p ≡ [] → IsTrue (is_written p)
        → Typed p c → transition p c l ≡ Some d → Typed p d }
    ensures by_run { (p : ProgramTree) (c d : Configuration) (ls : List Label) → faults p ≡ [] → IsTrue (is_written p)
        → Typed p c → run p c ls ≡ Some d → Typed p d }
{}

/// In a typed configuration of a checked program no object goes wrong.
pub fn nobody_goes_wrong()
    ensures { (p : ProgramTree) (c : Configuration) (o : ℕ) (x : Object) → faults p ≡ [] → IsTrue (is_written p)
        → Typed p c → object_of c o ≡ Some x → ¬ (GoesWrong p c o (action p o x)) }
{}

/// Progress: in a typed configuration of a checked program, an object without an error is finished, can make a
/// transition, or is at a communication. A communication is a call, a wait, an answer or a select.
pub fn an_object_can_go_on_or_is_at_a_communication()
    ensures { (p : ProgramTree) (c : Configuration) (o : ℕ) (x : Object) → faults p ≡ [] → IsTrue (is_written p)
        → Typed p c → object_of c o ≡ Some x → x.fault ≡ None → action p o x ≢ A.Finished
        → HasOwnTransition p c o ⊎ IsCommunication (action p o x) }
{}
