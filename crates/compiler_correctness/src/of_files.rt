//! Theorems about verified object code files. Each is the contract of a function with an empty body.
ghost use Rattle.std.specs.Prelude.{◌≡◌, ℕ, List, [], Some, true};
ghost use Rattle.pool_grammar.specs.Grammatical.{IsGrammatical};
ghost use Rattle.pool_syntax.specs.Spelled.{is_spelled};
ghost use Rattle.run_types.specs.Table.{is_distinct};
ghost use Rattle.pool_syntax.specs.Terms.{ProgramTree};
ghost use Rattle.text_scan.specs.Text.{Text};
ghost use Rattle.pool_syntax.specs.Typing.{faults};
ghost use Rattle.run_types.specs.declared.types.Event.{Event};
ghost use Rattle.run_types.specs.declared.types.Placement.{Placement};
ghost use Rattle.run_types.specs.Asks.{EachAnswersPost};
ghost use Rattle.mesh_semantics.specs.Config.{Config, object_of};
ghost use Rattle.mesh_semantics.specs.Delay.{no_delay, no_delay_on_wires};
ghost use Rattle.mesh_semantics.specs.FitFor.{FitFor};
ghost use Rattle.mesh_semantics.specs.Lawful.{Lawful};
ghost use Rattle.mesh_semantics.specs.Record.{start};
ghost use Rattle.mesh_semantics.specs.RecordOf.{record_of, record_on_wires};
ghost use Rattle.code_semantics.specs.declared.file.UnitFile.{UnitFile};
ghost use Rattle.object_code.specs.Decode.{Says, decode};
ghost use Rattle.object_code.specs.FileBytes.{file_bytes};
ghost use Rattle.code_semantics.specs.Proper.{IsProper};
ghost use Rattle.code_semantics.specs.Shaped.{IsShaped, IsWritable};
ghost use Rattle.code_semantics.specs.Suits.{Suits};
ghost use Rattle.pool_compile.specs.Code.{code};
ghost use Rattle.pool_compile.specs.Small.{AreShort};
ghost use Rattle.mesh_of_terms.specs.Terms.{terms};
ghost use Rattle.mesh_of_code.specs.Coded.{Placed, coded};
ghost use Rattle.compiler_correctness.specs.CodeRun.{IsCodeRun};
ghost use Rattle.compiler_correctness.specs.DeclaredKinds.{file_of};
ghost use Rattle.compiler_correctness.specs.ReachedCode.{IsReachedWhole};
ghost use Rattle.compiler_correctness.specs.TypedCode.{IsTypedCode, GoesWrong};
ghost use Rattle.code_typing.specs.Sorts.{Declared, declared_at};
ghost use Rattle.code_typing.specs.Verdict.{Good, verdict};
ghost use Rattle.code_typing.specs.Verified.{IsVerified};

/// The unit of a verified file is proper.
pub fn verified_units_are_proper()
    ensures { (f : UnitFile) → IsShaped f → IsVerified f → IsProper f.unit }
{}

/// The code of a verified file is a lawful language of objects.
/// Its invariant is `IsTypedCode`, that a configuration is typed: each transition keeps it.
pub fn verified_code_is_lawful()
    ensures { (f : UnitFile) → IsShaped f → IsVerified f → Lawful (coded f.unit) (IsTypedCode f) }
{}

/// In a typed configuration of the code of a verified file, no object goes wrong.
pub fn no_object_of_code_goes_wrong()
    ensures { (f : UnitFile) (c : Config Placed) (o : ℕ) (x : Placed) → IsShaped f → IsVerified f → IsTypedCode f c → object_of c o ≡ Some x → ¬ (GoesWrong f c o x) }
{}

/// The record of a verified file is a run of the transition relation over its objects.
/// Each configuration of the run is typed, and no object goes wrong.
/// Each event line is that of the act of its event at a sound configuration.
/// The acts of the lines before it lead to that configuration. If the line is idle, its event had nothing to do there.
/// If the record ends quiet, no transition is possible.
pub fn records_of_verified_code_are_runs()
    ensures records { (f : UnitFile) (l : Placement) (q : ℕ) (es : List Event) → IsShaped f → IsVerified f → FitFor (coded f.unit) l
        → (c : Config Placed) × (start (coded f.unit) l ≡ Some c) × IsCodeRun f l q c no_delay (record_of (coded f.unit) l q es) }
    ensures on_wires { (f : UnitFile) (l : Placement) (q : ℕ) (es : List Event) → IsShaped f → IsVerified f → FitFor (coded f.unit) l
        → (c : Config Placed) × (start (coded f.unit) l ≡ Some c) × IsCodeRun f l q c no_delay_on_wires (record_on_wires (coded f.unit) l q es) }
{}

/// Each line of the record of a verified file that answers a request
/// has the number, from 1, of the line that posts this request.
/// That line is of the same object, for the class or the call that the answering line names.
pub fn each_line_answers_its_post()
    ensures answers { (f : UnitFile) (l : Placement) (q : ℕ) (es : List Event) → IsShaped f → IsVerified f → FitFor (coded f.unit) l → EachAnswersPost (record_of (coded f.unit) l q es).lines }
    ensures on_wires { (f : UnitFile) (l : Placement) (q : ℕ) (es : List Event) → IsShaped f → IsVerified f → FitFor (coded f.unit) l → EachAnswersPost (record_on_wires (coded f.unit) l q es).lines }
{}

/// The file of a program of the grammar without class faults is verified, so the verdict on it is `Good`.
/// The names, strings and integers of the program must be spelled
/// right, and each code must have fewer than 2^32 instructions. The file of each program is shaped.
pub fn files_of_programs_are_verified()
    ensures shaped { (names : List Text) (p : ProgramTree) → IsShaped (file_of names p) }
    ensures verified { (names : List Text) (p : ProgramTree) → ∥ IsGrammatical p ∥₁ → faults p ≡ [] → is_spelled names p ≡ true → AreShort (code p) → IsVerified (file_of names p) }
    ensures good { (names : List Text) (p : ProgramTree) → ∥ IsGrammatical p ∥₁ → faults p ≡ [] → is_spelled names p ≡ true → AreShort (code p) → verdict (file_of names p) ≡ Good }
{}

/// Each place of the code of a program of the grammar without class faults is reached from the start of its code.
/// The conditions are those of `files_of_programs_are_verified`. So each place has exactly one stack of sorts.
pub fn each_place_of_compiled_code_is_reached()
    ensures { (names : List Text) (p : ProgramTree) → ∥ IsGrammatical p ∥₁ → faults p ≡ [] → is_spelled names p ≡ true → AreShort (code p)
        → (j : ℕ) (k : Declared) → declared_at (file_of names p) j ≡ Some k → IsReachedWhole (file_of names p) k }
{}

/// If the names of a file are distinct, its encoding decodes to that file.
pub fn files_are_read_back()
    ensures { (f : UnitFile) → IsWritable f → is_distinct f.unit.names ≡ true → decode (file_bytes f) ≡ Says f }
{}

/// The record of the file of a program of the grammar without class faults has the lines of the program's record.
pub fn files_run_as_their_programs()
    ensures records { (names : List Text) (p : ProgramTree) (l : Placement) (q : ℕ) (es : List Event) → ∥ IsGrammatical p ∥₁ → faults p ≡ []
        → Suits l (file_of names p).unit → (record_of (terms p) l q es).lines ≡ (record_of (coded (file_of names p).unit) l q es).lines }
    ensures on_wires { (names : List Text) (p : ProgramTree) (l : Placement) (q : ℕ) (es : List Event) → ∥ IsGrammatical p ∥₁ → faults p ≡ []
        → Suits l (file_of names p).unit → (record_on_wires (terms p) l q es).lines ≡ (record_on_wires (coded (file_of names p).unit) l q es).lines }
{}
