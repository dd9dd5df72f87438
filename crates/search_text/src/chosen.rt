//! The rows of some objects among those that wait.
ghost use Rattle.std.specs.Prelude.{◌≡◌, IfOk};
ghost use Rattle.search_text.specs.ChosenRows.{has_name, rows_of};

use std::alloc::{AllocError, Global};
use wait_report::ObjectRow;

/// Whether the name is one of these.
fn has_name(names: &[u32], name: u32) -> bool
    ensures { result ≡ has_name names.now name }
{
    for one in names {
        if *one == name {
            return true;
        }
    }
    false
}

/// The rows of the objects with these names, in their order. An error means out of memory.
pub fn rows_of(
    alloc: Global,
    rows: &[ObjectRow],
    names: &[u32],
) -> Result<Vec<ObjectRow>, AllocError>
    ensures { IfOk result (λ r. r.items ≡ rows_of names.now rows.now) }
{
    let mut chosen = Vec::new(alloc);
    for row in rows {
        if has_name(names, row.name) {
            chosen.push(*row)?;
        }
    }
    Ok(chosen)
}
