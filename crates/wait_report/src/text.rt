//! The text of the report.
ghost use Rattle.std.specs.Prelude.{◌≡◌, [], ◌∷◌, ◌++◌, OnOk};
ghost use Rattle.record_writer.specs.RecordText.{led};
ghost use Rattle.wait_report.specs.Report.{row_line, standing_words};

use crate::rows::ObjectRow;
use record_writer::{push_error, push_name, push_number, push_object, push_object_name, push_word};
use run_types::{Names, Standing};
use std::alloc::AllocError;

/// Appends bytes. Returns `Err` if memory runs out.
pub fn put(text: &mut Vec<u8>, bytes: &[u8]) -> Result<(), AllocError>
    ensures { OnOk result (text.new.items ≡ text.old.items ++ bytes.now) }
{
    text.extend_from_slice(bytes)
}

/// Appends the status of an object.
fn put_standing(text: &mut Vec<u8>, names: &Names, standing: Standing) -> Result<(), AllocError>
    ensures { OnOk result (text.new.items ≡ text.old.items ++ led (standing_words names.now standing)) }
{
    match standing {
        Standing::Ready => push_word(text, b"ready"),
        Standing::Finished => push_word(text, b"finished"),
        Standing::Faulted { error } => {
            push_word(text, b"faulted")?;
            push_error(text, error)
        }
        Standing::Calls { to, method } => {
            push_word(text, b"calls")?;
            push_object(text, to)?;
            push_name(text, names, method)
        }
        Standing::Creates { class, node } => {
            push_word(text, b"creates")?;
            push_name(text, names, class)?;
            push_number(text, node)
        }
        Standing::Due => push_word(text, b"due"),
        Standing::Awaits => push_word(text, b"awaits"),
    }
}

/// Appends the line of an object. Returns `Err` if memory runs out.
pub fn put_row(text: &mut Vec<u8>, names: &Names, row: &ObjectRow) -> Result<(), AllocError>
    ensures { OnOk result (text.new.items ≡ text.old.items ++ row_line names.now row.now) }
{
    push_object_name(text, row.name)?;
    push_name(text, names, row.class)?;
    put_standing(text, names, row.standing)?;
    put(text, b"\n")
}
