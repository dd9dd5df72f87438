//! The laws: each is the contract of a function with an empty body.
ghost use Rattle.std.specs.Prelude.{◌≡◌, List, None, true};
ghost use Rattle.run_types.specs.Table.{is_distinct};
ghost use Rattle.text_scan.specs.Text.{Text};
ghost use Rattle.run_types.specs.declared.types.Line.{Line};
ghost use Rattle.record_writer.specs.RecordText.{record_text};
ghost use Rattle.record_writer.specs.SecondForm.{text2};
ghost use Rattle.run_record.specs.Numbered.{lines_after, names_after};
ghost use Rattle.run_record.specs.Records.{record_of};
ghost use Rattle.run_record.specs.Readable.{IsRecord};
ghost use Rattle.run_record.specs.Converted.{converted};

/// Reading the text of a record with the writer's table of names gives the lines of the record, without a fault. The
/// table stays the same.
pub fn the_text_of_a_record_is_read_as_its_lines()
    ensures faultless { (names : List Text) (ls : List Line) → is_distinct names ≡ true → IsRecord names ls → (record_of (record_text names ls)).fault ≡ None }
    ensures lines { (names : List Text) (ls : List Line) → is_distinct names ≡ true → IsRecord names ls → lines_after names (record_of (record_text names ls)).told ≡ ls }
    ensures names { (names : List Text) (ls : List Line) → is_distinct names ≡ true → IsRecord names ls → names_after names (record_of (record_text names ls)).told ≡ names }
{}

/// Reading the second form of a record with the writer's table of names gives the lines of the record, without a fault.
/// The table stays the same.
pub fn the_second_text_of_a_record_is_read_as_its_lines()
    ensures faultless { (names : List Text) (ls : List Line) → is_distinct names ≡ true → IsRecord names ls → (record_of (text2 names ls)).fault ≡ None }
    ensures lines { (names : List Text) (ls : List Line) → is_distinct names ≡ true → IsRecord names ls → lines_after names (record_of (text2 names ls)).told ≡ ls }
    ensures names { (names : List Text) (ls : List Line) → is_distinct names ≡ true → IsRecord names ls → names_after names (record_of (text2 names ls)).told ≡ names }
{}

/// Reading the text of a record and writing its lines in the second form gives the second form of the record. Both
/// texts give the same lines.
pub fn a_record_is_carried_over()
    ensures text { (names : List Text) (ls : List Line) → is_distinct names ≡ true → IsRecord names ls
        → text2 (names_after names (record_of (record_text names ls)).told) (lines_after names (record_of (record_text names ls)).told) ≡ text2 names ls }
    ensures lines { (names : List Text) (ls : List Line) → IsRecord names ls → (record_of (text2 names ls)).told ≡ (record_of (record_text names ls)).told }
{}

/// The lines of any text without fault, with the table after reading it, are a record. So the premise of the other laws
/// holds for any text that was read.
pub fn what_is_read_is_readable()
    ensures { (s : Text) (names : List Text) → (record_of s).fault ≡ None → IsRecord (names_after names (record_of s).told) (lines_after names (record_of s).told) }
{}

/// The conversion of a text without fault to the second form has no fault, gives the same lines, and converts to
/// itself.
pub fn converting_twice_is_converting_once()
    ensures faultless { (s : Text) → (record_of s).fault ≡ None → (record_of (converted s)).fault ≡ None }
    ensures same { (s : Text) → (record_of s).fault ≡ None → (record_of (converted s)).told ≡ (record_of s).told }
    ensures once { (s : Text) → (record_of s).fault ≡ None → converted (converted s) ≡ converted s }
{}
