//! The lines of objects that wait.
ghost use Rattle.std.specs.Prelude.{◌≡◌, ◌++◌, OnOk};
ghost use Rattle.waiting_objects.specs.WaitsText.{waits_line, waits_text};

use run_types::Names;
use std::alloc::AllocError;
use wait_report::{ObjectRow, put_row};

/// Appends the line of an object that waits.
fn push_waits(text: &mut Vec<u8>, names: &Names, row: &ObjectRow) -> Result<(), AllocError>
    ensures { OnOk result (text.new.items ≡ text.old.items ++ waits_line names.now row.now) }
{
    text.extend_from_slice(b"waits ")?;
    put_row(text, names, row)
}

/// Appends the lines of objects that wait. An error means out of memory.
pub fn push_waiting(text: &mut Vec<u8>, names: &Names, rows: &[ObjectRow]) -> Result<(), AllocError>
    ensures { OnOk result (text.new.items ≡ text.old.items ++ waits_text names.now rows.now) }
{
    for row in rows {
        push_waits(text, names, row)?;
    }
    Ok(())
}
