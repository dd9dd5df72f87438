//! The cycles of objects in which each calls the next.
ghost use Rattle.std.specs.Prelude.{◌≡◌, ◌≢◌, ◌<◌, ◌++◌, ℕ, None, true, false, length, get_or, IfOk, OnOk};
ghost use Rattle.mesh_semantics.specs.Standing.{chase};
ghost use Rattle.wait_report.specs.Cycles.{jump, cycle_at, least_from, AreWithin, AreStarts, IsMarked};

use crate::text::put;
use record_writer::push_object;
use std::alloc::{AllocError, Global};

/// Appends the line of the cycle whose least index is `first`. Appends nothing if there is none. Returns `Err` if
/// memory runs out.
pub fn put_cycle(
    text: &mut Vec<u8>,
    numbers: &[u32],
    next: &[Option<usize>],
    first: usize,
) -> Result<(), AllocError>
    requires within { AreWithin next.now }
    requires numbers { length numbers.now ≡ length next.now }
    requires first { first < length next.now }
    ensures { OnOk result (text.new.items ≡ text.old.items ++ cycle_at numbers.now (chase (jump next.now) (length next.now) first first)) }
{
    let before = text.len();
    put(text, b"cycle")?;
    let mut at = first;
    for _step in 0..next.len() {
        push_object(text, numbers[at])?;
        match next[at] {
            Some(place) if place == first => return put(text, b"\n"),
            Some(place) if place > first => at = place,
            _ => break,
        }
    }
    text.truncate(before);
    Ok(())
}

/// The least index of the path, from the first `at` on. None if `at` is not in it.
fn least_from(path: &[usize], at: usize) -> Option<usize>
    ensures { result ≡ least_from at path.now }
{
    let mut least = None;
    for place in path {
        least = match least {
            None if *place == at => Some(*place),
            None => None,
            Some(l) => Some(if *place < l { *place } else { l }),
        };
    }
    least
}

/// Walks from an unseen index along `next`, up to a seen index or the end. If this closes a cycle, it marks the least
/// index of the cycle in `starts`.
fn walk(
    alloc: Global,
    next: &[Option<usize>],
    seen: &mut [bool],
    starts: &mut [bool],
    from: usize,
) -> Result<(), AllocError>
    requires within { AreWithin next.now }
    requires state { IsMarked next.now seen.old starts.old }
    requires from { from < length next.now }
    ensures state { OnOk result (IsMarked next.now seen.new starts.new) }
    ensures lengths { (length seen.new ≡ length seen.old) × (length starts.new ≡ length starts.old) }
    ensures seen { OnOk result (get_or seen.new from false ≡ true) }
    ensures kept { OnOk result ((k : ℕ) → get_or seen.old k false ≡ true → get_or seen.new k false ≡ true) }
{
    let mut path = Vec::new(alloc);
    let mut at = from;
    while !seen[at] {
        seen[at] = true;
        path.push(at)?;
        match next[at] {
            Some(place) => at = place,
            None => return Ok(()),
        }
    }
    if let Some(least) = least_from(path.as_slice(), at) {
        starts[least] = true;
    }
    Ok(())
}

/// Marks the least index of each cycle. Returns `Err` if memory runs out.
pub fn starts(alloc: Global, next: &[Option<usize>]) -> Result<Vec<bool>, AllocError>
    requires { AreWithin next.now }
    ensures marks { IfOk result (λ s. length s.items ≡ length next.now) }
    ensures starts { IfOk result (λ s. AreStarts next.now s.items) }
{
    let mut starts = vec![in alloc; false; next.len()]?;
    let mut seen = vec![in alloc; false; next.len()]?;
    for from in 0..next.len() {
        if !seen[from] {
            walk(
                alloc,
                next,
                seen.as_mut_slice(),
                starts.as_mut_slice(),
                from,
            )?;
        }
    }
    Ok(starts)
}
