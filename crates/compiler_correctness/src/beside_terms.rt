//! Theorems that compare the code of a program with its terms, on placed machines.
//! Each is the contract of a function with an empty body.
ghost use Rattle.std.specs.Prelude.{◌≡◌, ℕ, List, [], Some};
ghost use Rattle.pool_syntax.specs.Terms.{ProgramTree};
ghost use Rattle.text_scan.specs.Text.{Text};
ghost use Rattle.pool_syntax.specs.Typing.{faults};
ghost use Rattle.pool_grammar.specs.Programs.{IsParsed};
ghost use Rattle.run_types.specs.declared.types.Event.{Event};
ghost use Rattle.run_types.specs.declared.types.Label.{Label};
ghost use Rattle.run_types.specs.declared.types.Placement.{Placement};
ghost use Rattle.pool_relation.specs.Action.{Object};
ghost use Rattle.pool_relation.specs.Configuration.{Configuration};
ghost use Rattle.pool_relation.specs.Transition as X;
ghost use Rattle.pool_relation.specs.Transition.{run};
ghost use Rattle.code_semantics.specs.declared.unit.Unit.{Unit as Code};
ghost use Rattle.code_semantics.specs.Proper.{IsProper};
ghost use Rattle.code_semantics.specs.Suits.{Suits};
ghost use Rattle.pool_compile.specs.Code.{code};
ghost use Rattle.mesh_semantics.specs.Act.{act, is_quiet};
ghost use Rattle.mesh_semantics.specs.Config.{Config, object_of};
ghost use Rattle.mesh_semantics.specs.Delay.{Delay};
ghost use Rattle.mesh_semantics.specs.FitFor.{FitFor};
ghost use Rattle.mesh_semantics.specs.Record.{root_name, start};
ghost use Rattle.mesh_semantics.specs.RecordOf.{record_of, record_on_wires};
ghost use Rattle.mesh_semantics.specs.Simulates.{Both, Simulates, Related, SameAct, SameRecord};
ghost use Rattle.mesh_semantics.specs.Cycles.{cycles};
ghost use Rattle.mesh_semantics.specs.Sound.{IsSound};
ghost use Rattle.node_semantics.specs.Machine.{Machine};
ghost use Rattle.node_semantics.specs.WiresStandFor.{StandsFor};
ghost use Rattle.mesh_of_terms.specs.Terms.{terms, plain};
ghost use Rattle.mesh_of_terms.specs.RunOf.{TypedTerms};
ghost use Rattle.mesh_of_code.specs.Coded.{Placed, coded};
ghost use Rattle.mesh_of_code.specs.CodeInvariant.{IsOfCode};
ghost use Rattle.compiler_correctness.specs.CheckedProgram.{IsCheckedProgram};
ghost use Rattle.compiler_correctness.specs.HasCode.{HasCode};
ghost use Rattle.compiler_correctness.specs.Matches.{Matches};
ghost use Rattle.compiler_correctness.specs.StandsAlike.{StandsAlike};

/// A parsed program without class faults satisfies `IsCheckedProgram`, the premise of the theorems about its code.
pub fn parsed_programs_are_checked()
    ensures { (s : Text) (names : List Text) (p : ProgramTree) → IsParsed s names p → faults p ≡ [] → IsCheckedProgram p }
{}

/// A placement that suits the code of a program fits the program.
pub fn what_suits_the_code_fits_the_program()
    ensures { (p : ProgramTree) (u : Code) (l : Placement) → u.classes ≡ code p → Suits l u → FitFor (terms p) l }
{}

/// The code of a program simulates its objects: an object and its code have the same next action,
/// and correspond again after each step.
pub fn code_does_what_terms_do()
    ensures { (p : ProgramTree) (u : Code) → IsCheckedProgram p → u.classes ≡ code p → Simulates (terms p) (coded u) (TypedTerms p) (Matches p u) }
{}

/// The code has a start if the program has one, and the two starts correspond.
pub fn code_starts_as_terms()
    ensures { (p : ProgramTree) (u : Code) (l : Placement) (c : Config Object) → IsCheckedProgram p → u.classes ≡ code p → start (terms p) l ≡ Some c
        → (e : Config Placed) × (start (coded u) l ≡ Some e) × Related (Matches p u) c e }
{}

/// Over any schedule, with or without wires, the record of the code
/// has the lines of the program's record, and the same last delay. The last configurations correspond.
/// The placement must fit the program.
pub fn records_of_code_are_those_of_terms()
    ensures on_wires { (p : ProgramTree) (u : Code) (l : Placement) (q : ℕ) (es : List Event) → IsCheckedProgram p → u.classes ≡ code p → FitFor (terms p) l
        → SameRecord (Matches p u) (record_on_wires (terms p) l q es) (record_on_wires (coded u) l q es) }
    ensures records { (p : ProgramTree) (u : Code) (l : Placement) (q : ℕ) (es : List Event) → IsCheckedProgram p → u.classes ≡ code p → FitFor (terms p) l
        → SameRecord (Matches p u) (record_of (terms p) l q es) (record_of (coded u) l q es) }
{}

/// Corresponding configurations have the same objects, each with the
/// same class and the same status, and the same cycles of calls.
pub fn code_stands_as_terms()
    ensures objects { (p : ProgramTree) (u : Code) (c : Config Object) (e : Config Placed) (d : Delay) (o : ℕ) → IsCheckedProgram p → u.classes ≡ code p
        → Related (Matches p u) c e → Both (StandsAlike p u d o) (object_of c o) (object_of e o) }
    ensures cycles { (p : ProgramTree) (u : Code) (c : Config Object) (e : Config Placed) (d : Delay) → IsCheckedProgram p → u.classes ≡ code p
        → Related (Matches p u) c e → cycles (terms p) c d ≡ cycles (coded u) e d }
{}

/// In corresponding configurations, each event has the same line or
/// reaches the same limit, and the configurations after it correspond. The configuration of terms must be typed.
/// Corresponding configurations are both quiet, or neither is.
pub fn events_of_code_are_those_of_terms()
    ensures acts { (p : ProgramTree) (u : Code) (l : Placement) (q : ℕ) (c : Config Object) (e : Config Placed) (d : Delay) (ev : Event) → IsCheckedProgram p → u.classes ≡ code p
        → TypedTerms p c → Related (Matches p u) c e → SameAct (Matches p u) (act (terms p) l q c d ev) (act (coded u) l q e d ev) }
    ensures quiet { (p : ProgramTree) (u : Code) (c : Config Object) (e : Config Placed) (d : Delay) → IsCheckedProgram p → u.classes ≡ code p
        → Related (Matches p u) c e → is_quiet (terms p) c d ≡ is_quiet (coded u) e d }
{}

/// Each configuration that a run of a program reaches has a
/// corresponding configuration of the code, which is of the unit.
/// The latter is sound with each delay with which the former is sound.
/// So the theorems about events of the code apply to each sound configuration that a run reaches.
pub fn what_a_run_reaches_has_code()
    ensures { (p : ProgramTree) (u : Code) (l : Placement) (first : Configuration) (labs : List Label) (c : Config Object) → IsCheckedProgram p → u.classes ≡ code p → IsProper u
        → X.start p (root_name l) ≡ Some first → run p first labs ≡ Some (plain c) → HasCode p u l c }
{}

/// Each machine represents a sound configuration of the code. Take any sound configuration of the program, with its
/// delay, and code that corresponds to it. If the machine represents this code with the delay, the code is of the unit,
/// and sound with the delay. So the theorems about events of a machine apply to every sound configuration of the
/// program that it represents, whether a run reaches it or not.
pub fn what_a_machine_stands_for_has_code()
    ensures { (p : ProgramTree) (u : Code) (l : Placement) (m : Machine Placed) (first : Config Placed) (d : Delay) (c : Config Object) (e : Config Placed) (f : Delay)
        → IsCheckedProgram p → u.classes ≡ code p → IsSound (coded u) (IsOfCode u) l first d → StandsFor (coded u) l m first d
        → IsSound (terms p) (TypedTerms p) l c f → Related (Matches p u) c e → StandsFor (coded u) l m e f → IsSound (coded u) (IsOfCode u) l e f }
{}
