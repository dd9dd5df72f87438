//! Theorems about units and their files. Each is the contract of a function with an empty body.
ghost use Rattle.std.specs.Prelude.{◌≡◌, ◌<◌, ℕ, suc, ◌++◌, [], length, take, None};
ghost use Rattle.std.specs.List.{AllByRecursion};
ghost use Rattle.text_scan.specs.Text.{Text};
ghost use Rattle.code_semantics.specs.declared.file.UnitFile.{UnitFile};
ghost use Rattle.object_code.specs.Decode.{Says, BadBytes, decode, first_twice, unless_twice};
ghost use Rattle.object_code.specs.FileBytes.{file_bytes};
ghost use Rattle.object_code.specs.Known.{IsKnownUnit};
ghost use Rattle.code_semantics.specs.Proper.{IsProper};
ghost use Rattle.code_semantics.specs.Shaped.{HasNumbers, IsShaped, IsShort, IsWritable};

use code_semantics::Unit;

/// Every name and string of a proper unit is in its table. So `list_code` accepts the unit.
pub fn proper_units_can_be_listed(unit: &Unit)
    requires proper { IsProper unit.now }
    ensures { IsKnownUnit unit.now }
{}

/// A file can be encoded if it is shaped and short and its numbers fit their types.
/// Conversely, each file that can be encoded is shaped and short.
pub fn short_files_have_bytes()
    ensures have { (f : UnitFile) → IsShaped f → IsShort f → HasNumbers f → IsWritable f }
    ensures are { (f : UnitFile) → IsWritable f → IsShaped f × IsShort f }
{}

/// Decoding inverts encoding: the encoding of a file decodes to that file, or to `NameTwice` if a name is a duplicate.
pub fn files_are_their_bytes()
    ensures { (f : UnitFile) → IsWritable f → decode (file_bytes f) ≡ unless_twice f (first_twice 0 [] f.unit.names) }
{}

/// Encoding inverts decoding: bytes that decode to a file are the encoding of that file.
/// The file is shaped, its numbers fit the format, and it has no duplicate name.
pub fn bytes_are_their_file()
    ensures { (bytes : Text) (f : UnitFile) → AllByRecursion (λ b. b < 256) bytes → decode bytes ≡ Says f
        → (bytes ≡ file_bytes f) × IsWritable f × IsShaped f × (first_twice 0 [] f.unit.names ≡ None) }
{}

/// `decode` reports the first bad byte, and no earlier one:
/// the bytes before it can be completed to the encoding of a file (rejected at most for a duplicate name),
/// and no bytes appended after it change the answer.
pub fn the_bad_byte_is_the_first()
    ensures begins { (bytes : Text) (at : ℕ) → decode bytes ≡ BadBytes at → (more : Text) × (f : UnitFile) × (decode (take at bytes ++ more) ≡ unless_twice f (first_twice 0 [] f.unit.names)) }
    ensures stays { (bytes : Text) (at : ℕ) → decode bytes ≡ BadBytes at → at < length bytes → (more : Text) → decode (take (suc at) bytes ++ more) ≡ BadBytes at }
{}
