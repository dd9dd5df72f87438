//! Theorems about the records of code. Each is the contract of a function with an empty body.
ghost use Rattle.std.specs.Prelude.{◌≡◌, ◌≤◌, ℕ, List, [], length};
ghost use Rattle.text_scan.specs.Text.{Text};
ghost use Rattle.pool_syntax.specs.Terms.{ProgramTree};
ghost use Rattle.pool_syntax.specs.Typing.{faults};
ghost use Rattle.pool_grammar.specs.Programs.{IsParsed};
ghost use Rattle.pool_compile.specs.Code.{code};
ghost use Rattle.mesh_of_terms.specs.Terms.{terms};
ghost use Rattle.compiler_correctness.specs.CheckedProgram.{IsCheckedProgram};
ghost use Rattle.run_types.specs.declared.types.Event.{Event};
ghost use Rattle.run_types.specs.declared.types.Line.{Line};
ghost use Rattle.run_types.specs.declared.types.Placement.{Placement};
ghost use Rattle.code_semantics.specs.declared.unit.Unit.{Unit as Code};
ghost use Rattle.code_semantics.specs.Proper.{IsProper};
ghost use Rattle.code_semantics.specs.Suits.{Suits};
ghost use Rattle.mesh_semantics.specs.RecordOf.{record_of, record_on_wires};
ghost use Rattle.run_types.specs.Tables.{Each};
ghost use Rattle.mesh_of_code.specs.Coded.{coded};
ghost use Rattle.run_record.specs.Readable.{IsReadableEvent, IsRecord};
ghost use Rattle.compiler_correctness.specs.ReadsBack.{ReadsBack};
ghost use Rattle.compiler_correctness.specs.SpelledUnit.{IsSpelledUnit, SendsNames};

/// The text of a record of code can be read back, with or without wires.
/// The unit must be proper and spelled, and the method of each send must be a name. The placement must suit the unit.
/// The schedule has at most 2,000,000 readable events, and a turn at most 10,000 transitions.
pub fn records_of_code_are_readable()
    ensures records { (u : Code) (l : Placement) (q : ℕ) (es : List Event) → IsProper u → IsSpelledUnit u → SendsNames u → Suits l u → q ≤ 10000 → length es ≤ 2000000 → Each IsReadableEvent es
        → IsRecord u.names (record_of (coded u) l q es).lines }
    ensures on_wires { (u : Code) (l : Placement) (q : ℕ) (es : List Event) → IsProper u → IsSpelledUnit u → SendsNames u → Suits l u → q ≤ 10000 → length es ≤ 2000000 → Each IsReadableEvent es
        → IsRecord u.names (record_on_wires (coded u) l q es).lines }
{}

/// The text of a record of a parsed program without class faults can be read back, if the program's code is proper.
/// The bounds are those of `records_of_code_are_readable`.
/// So each such record meets the premise of the theorems that read a record's text.
pub fn records_of_programs_are_readable()
    ensures records { (source : Text) (names : List Text) (p : ProgramTree) (l : Placement) (q : ℕ) (es : List Event) → IsParsed source names p → faults p ≡ []
        → IsProper (record { names = names; classes = code p }) → Suits l (record { names = names; classes = code p }) → q ≤ 10000 → length es ≤ 2000000 → Each IsReadableEvent es
        → IsRecord names (record_of (terms p) l q es).lines }
    ensures on_wires { (source : Text) (names : List Text) (p : ProgramTree) (l : Placement) (q : ℕ) (es : List Event) → IsParsed source names p → faults p ≡ []
        → IsProper (record { names = names; classes = code p }) → Suits l (record { names = names; classes = code p }) → q ≤ 10000 → length es ≤ 2000000 → Each IsReadableEvent es
        → IsRecord names (record_on_wires (terms p) l q es).lines }
{}

/// Readable lines that are written with the names of a parsed
/// program, in either form of the text, are read back as these lines.
pub fn readable_records_are_read_back()
    ensures { (source : Text) (names : List Text) (p : ProgramTree) (ls : List Line) → IsParsed source names p → IsRecord names ls → ReadsBack names ls }
{}
