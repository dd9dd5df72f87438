//! The objects of a report, and the calls between them.
ghost use Rattle.std.specs.Prelude.{◌≡◌, ◌≢◌, ◌<◌, ℕ, length, get_or, map, IfOk, IfSome, IfNone};
ghost use Rattle.wait_report.specs.Calls.{AreNext, IsNext, Rising};
ghost use Rattle.wait_report.specs.Report.{called};

use run_types::{NameId, Standing};
use std::alloc::{AllocError, Global};

/// An object: its name, its class and its status.
#[derive(Clone, Copy)]
pub struct ObjectRow {
    pub name: u32,
    pub class: NameId,
    pub standing: Standing,
}

/// The names of the objects. Returns `Err` if memory runs out.
pub fn numbers(alloc: Global, rows: &[ObjectRow]) -> Result<Vec<u32>, AllocError>
    ensures { IfOk result (λ v. v.items ≡ map (λ r. r.name) rows.now) }
{
    let mut numbers = Vec::with_capacity(alloc, rows.len())?;
    for row in rows {
        numbers.push(row.name)?;
    }
    Ok(numbers)
}

/// The index of a name, by binary search.
fn place(numbers: &[u32], name: u32) -> Option<usize>
    requires { Rising numbers.now }
    ensures some { IfSome result (λ k. (k < length numbers.now) × (get_or numbers.now k 0 ≡ name)) }
    ensures none { IfNone result ((k : ℕ) → k < length numbers.now → get_or numbers.now k 0 ≢ name) }
{
    match numbers.binary_search(&name) {
        Ok(place) => Some(place),
        Err(_) => None,
    }
}

/// The index of the object that an object calls.
fn callee(numbers: &[u32], standing: Standing) -> Option<usize>
    requires { Rising numbers.now }
    ensures { IsNext numbers.now (called standing) result }
{
    match standing {
        Standing::Calls { to, .. } => place(numbers, to),
        _ => None,
    }
}

/// The index of the object that each object calls. None for an object that calls none of the objects. Requires names in
/// ascending order. Returns `Err` if memory runs out.
pub fn callees(
    alloc: Global,
    rows: &[ObjectRow],
    numbers: &[u32],
) -> Result<Vec<Option<usize>>, AllocError>
    requires { Rising numbers.now }
    ensures { IfOk result (λ v. AreNext numbers.now rows.now v.items) }
{
    let mut callees = Vec::with_capacity(alloc, rows.len())?;
    for row in rows {
        callees.push(callee(numbers, row.standing))?;
    }
    Ok(callees)
}
