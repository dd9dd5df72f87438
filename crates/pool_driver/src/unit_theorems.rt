//! Theorems about verified object code files. Each is the contract of a function with an empty body.
ghost use Rattle.std.specs.Prelude.{◌≡◌, ◌≤◌, ℕ, List, length};
ghost use Rattle.run_types.specs.declared.types.Event.{Event};
ghost use Rattle.run_types.specs.declared.types.Placement.{Placement};
ghost use Rattle.pool_syntax.specs.declared.token.Token.{Token};
ghost use Rattle.pool_syntax.specs.Tokens.{HasTokens};
ghost use Rattle.text_scan.specs.Text.{Text};
ghost use Rattle.code_semantics.specs.declared.file.UnitFile.{UnitFile};
ghost use Rattle.object_code.specs.Decode.{Says, decode};
ghost use Rattle.code_semantics.specs.Shaped.{IsShaped, IsWritable};
ghost use Rattle.code_typing.specs.Verified.{IsVerified};
ghost use Rattle.code_semantics.specs.Suits.{Suits};
ghost use Rattle.mesh_semantics.specs.RecordOf.{record_of, record_on_wires};
ghost use Rattle.run_types.specs.Tables.{Each};
ghost use Rattle.mesh_of_code.specs.Coded.{coded};
ghost use Rattle.run_record.specs.Readable.{IsReadableEvent, IsRecord};
ghost use Rattle.compiler_correctness.specs.SpelledUnit.{IsSpelledUnit};

/// The code of a verified file creates objects of classes with
/// names of the language, and writes strings of the language.
/// Its integers have 64 bits.
pub fn verified_code_is_spelled()
    ensures { (f : UnitFile) → IsShaped f → IsVerified f → IsWritable f → IsSpelledUnit f.unit }
{}

/// The record of a verified file can be written and read back, with or without wires.
/// It requires a placement that suits its unit, at most 2,000,000 events, and at most 10,000 transitions in a turn.
/// A send that no run reaches may name no method.
pub fn records_of_files_are_readable()
    ensures records { (f : UnitFile) (l : Placement) (q : ℕ) (es : List Event) → IsShaped f → IsVerified f → IsWritable f → Suits l f.unit → q ≤ 10000 → length es ≤ 2000000
        → Each IsReadableEvent es → IsRecord f.unit.names (record_of (coded f.unit) l q es).lines }
    ensures on_wires { (f : UnitFile) (l : Placement) (q : ℕ) (es : List Event) → IsShaped f → IsVerified f → IsWritable f → Suits l f.unit → q ≤ 10000 → length es ≤ 2000000
        → Each IsReadableEvent es → IsRecord f.unit.names (record_on_wires (coded f.unit) l q es).lines }
{}

/// The bytes of an object code file have no tokens, so they are not a program.
pub fn no_file_is_a_program()
    ensures { (s : Text) (f : UnitFile) (names : List Text) (ts : List Token) → decode s ≡ Says f → ¬ (HasTokens s names ts) }
{}
