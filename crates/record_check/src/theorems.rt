//! Theorems about records that the checker accepts. Each is the contract of a function with an empty body.
ghost use Rattle.std.specs.Prelude.{◌≡◌, ℕ, List, [], Some, IsTrue, true};
ghost use Rattle.run_types.specs.Table.{is_distinct};
ghost use Rattle.text_scan.specs.Text.{Text};
ghost use Rattle.pool_syntax.specs.Terms.{ProgramTree};
ghost use Rattle.pool_syntax.specs.Typing.{faults};
ghost use Rattle.run_types.specs.declared.types.Event.{Event};
ghost use Rattle.run_types.specs.declared.types.Line.{Line};
ghost use Rattle.run_types.specs.declared.types.Placement.{Placement};
ghost use Rattle.pool_relation.specs.Action.{Object};
ghost use Rattle.pool_relation.specs.Configuration.{Configuration};
ghost use Rattle.pool_relation.specs.Transition.{start};
ghost use Rattle.pool_syntax.specs.Written.{is_written};
ghost use Rattle.mesh_semantics.specs.Delay.{Delay};
ghost use Rattle.mesh_semantics.specs.FitFor.{FitFor};
ghost use Rattle.mesh_semantics.specs.Record.{Record, root_name};
ghost use Rattle.mesh_semantics.specs.RecordOf.{record_of, record_on_wires};
ghost use Rattle.mesh_of_terms.specs.RunOf.{IsRunFrom};
ghost use Rattle.mesh_of_terms.specs.Terms.{terms};
ghost use Rattle.record_writer.specs.SecondForm.{text2};
ghost use Rattle.run_record.specs.Numbered.{lines_after};
ghost use Rattle.run_record.specs.Records.{record_of as read_of};
ghost use Rattle.run_record.specs.Readable.{IsRecord};
ghost use Rattle.run_types.specs.declared.verdicts.Verdict.{Verdict as Verdicts};
ghost use Rattle.run_types.specs.declared.verdicts.Verdict.TheVariants.{Yes};
ghost use Rattle.record_check.specs.RecordJudgement.{IsRunOf, Judged};

/// The record of a program without class faults is a run of the program, with or without wires.
/// Only its lines are needed to see this.
pub fn a_written_record_is_a_run()
    ensures records { (p : ProgramTree) (l : Placement) (q : ℕ) (es : List Event) → faults p ≡ [] → IsTrue (is_written p) → FitFor (terms p) l → (p ≡ [] → ⊥)
        → IsRunOf p (record_of (terms p) l q es).lines }
    ensures on_wires { (p : ProgramTree) (l : Placement) (q : ℕ) (es : List Event) → faults p ≡ [] → IsTrue (is_written p) → FitFor (terms p) l → (p ≡ [] → ⊥)
        → IsRunOf p (record_on_wires (terms p) l q es).lines }
{}

/// If lines show a run from the start, on any mesh and with any delay, they are a run of the program.
/// Only the lines are needed to see this.
pub fn shown_runs_are_runs()
    ensures { (p : ProgramTree) (l : Placement) (q : ℕ) (c : Configuration) (d : Delay) (r : Record Object) → faults p ≡ [] → IsTrue (is_written p) → start p (root_name l) ≡ Some c
        → IsRunFrom p l q c d r → IsRunOf p r.lines }
{}

/// The only verdict on a record that is a run is `yes`.
pub fn a_run_is_judged_yes()
    ensures { (p : ProgramTree) (ls : List Line) (v : Verdicts) → IsRunOf p ls → Judged p ls v → v ≡ Yes }
{}

/// A record has at most one verdict.
/// So the line of a `no` is the first impossible one, and the object of a `no end` is the least that can move.
pub fn a_record_has_one_verdict()
    ensures { (p : ProgramTree) (ls : List Line) (v w : Verdicts) → Judged p ls v → Judged p ls w → v ≡ w }
{}

/// If the record of a program is written and read back, its only verdict is `yes`.
/// Reading may give other numbers to the names.
pub fn what_was_written_is_judged_yes()
    ensures records { (names : List Text) (p : ProgramTree) (l : Placement) (q : ℕ) (es : List Event) (v : Verdicts) → is_distinct names ≡ true → faults p ≡ [] → IsTrue (is_written p)
        → FitFor (terms p) l
        → (p ≡ [] → ⊥) → IsRecord names (record_of (terms p) l q es).lines → Judged p (lines_after names (read_of (text2 names (record_of (terms p) l q es).lines)).told) v → v ≡ Yes }
    ensures on_wires { (names : List Text) (p : ProgramTree) (l : Placement) (q : ℕ) (es : List Event) (v : Verdicts) → is_distinct names ≡ true → faults p ≡ [] → IsTrue (is_written p)
        → FitFor (terms p) l
        → (p ≡ [] → ⊥) → IsRecord names (record_on_wires (terms p) l q es).lines → Judged p (lines_after names (read_of (text2 names (record_on_wires (terms p) l q es).lines)).told) v → v ≡ Yes }
{}
