//! Finds cycles of silent instructions.
ghost use Rattle.std.specs.Prelude.{◌≡◌, ◌+◌, ◌<◌, ◌^◌, List, length, slice_get, Some, IfOk};
ghost use Rattle.code_semantics.specs.ReachedPlaces.{silent_to};
ghost use Rattle.code_semantics.specs.declared.unit.Instr.{Instr as AnInstr};
ghost use Rattle.code_typing.specs.Verdict.{has_no_circle};
ghost use Rattle.code_verifier.specs.Silent.{IsMarked, IsWalked, first_mark};

use code_semantics::Instr;
use std::alloc::{AllocError, Global};

/// The state of a place in the search for a cycle.
#[derive(Clone, Copy)]
pub enum Mark {
    /// Its instruction is not silent.
    Ends,
    /// Its silent instruction leads to this place, and no walk has visited it.
    Next(u32),
    /// The walk from this start was the first to visit it.
    Walked(u32),
}

/// The mark of a place before all walks.
fn first_mark(place: u32, instr: &Instr) -> Mark
    requires { place + 1 < 2 ^ 32 }
    ensures { result ≡ first_mark (silent_to place (Some instr.now)) }
{
    match instr {
        Instr::PushInt(_) | Instr::PushBool(_) | Instr::PushNil | Instr::Post => Mark::Next(
            place + 1,
        ),
        Instr::Jump(at) => Mark::Next(*at),
        _ => Mark::Ends,
    }
}

/// The marks of a code with `count` places before all walks. Reports an error if out of memory.
fn first_marks(alloc: Global, code: &[Instr], count: u32) -> Result<Vec<Mark>, AllocError>
    requires { count ≡ length code.now }
    ensures { IfOk result (λ marks. IsMarked code.now 0 marks.items) }
{
    let mut marks = Vec::new(alloc);
    for place in 0..count {
        let Ok(()) = marks.push(first_mark(place, &code[place as usize])) else {
            return Err(AllocError);
        };
    }
    Ok(marks)
}

fn mark_at(marks: &[Mark], place: u32) -> Option<Mark>
    ensures { result ≡ slice_get marks.now place }
{
    marks.get(place as usize).copied()
}

/// Follows the chain from `start` to its end, or to a place that a walk has visited.
/// Returns false if this walk itself has visited that place: the chain is a cycle.
fn walk(marks: &mut [Mark], start: u32) -> bool
    ensures { (c : List AnInstr) → IsMarked c start marks.old → IsWalked c start result marks.new }
{
    let mut place = start;
    loop {
        match mark_at(marks, place) {
            Some(Mark::Next(next)) => {
                marks[place as usize] = Mark::Walked(start);
                place = next;
            }
            Some(Mark::Walked(first)) => return first != start,
            Some(Mark::Ends) | None => return true,
        }
    }
}

/// Whether no chain of silent instructions is a cycle.
/// Reports an error if out of memory, or if the code has 2^32 places or more.
/// The first walk that visits a place marks it, and no other walk continues from there.
/// So time is proportional to the code.
pub fn has_no_circle(alloc: Global, code: &[Instr]) -> Result<bool, AllocError>
    ensures { IfOk result (λ b. b ≡ has_no_circle code.now code.now 0) }
{
    let Ok(count) = u32::try_from(code.len()) else {
        return Err(AllocError);
    };
    let mut marks = first_marks(alloc, code, count)?;
    for start in 0..count {
        if !walk(&mut marks, start) {
            return Ok(false);
        }
    }
    Ok(true)
}
