//! The alternatives of an object at an answer or a select.
ghost use Rattle.std.specs.Prelude.{◌≡◌, ◌-◌, ◌<◌, ◌≤◌, [], Some, length, slice_get, is_some, IsTrue};
ghost use Rattle.std.specs.Option.{option_copied};
ghost use Rattle.run_types.specs.Values.{is_true as holds};
ghost use Rattle.run_types.specs.Operands.{taken, nth};
ghost use Rattle.code_semantics.specs.Step.{after_choice};
ghost use Rattle.node_heap.specs.Heaps.{object_at, put_top, top_at};
ghost use Rattle.object_interp.specs.Choices.{Chooses, NextIs, offered_alt};

use crate::moves::is_true;
use code_semantics::{AltCode, Instr};
use node_heap::Heap;

/// Reports whether the guard of alternative `place` of `count`, counted from 0, is true.
fn is_open(heap: &Heap, slot: u32, count: u32, place: u32) -> bool
    requires slot { slot < length heap.now.objects }
    requires enough { count ≤ length (top_at heap.now slot).operands }
    requires place { place < count }
    ensures { result ≡ holds (nth (taken count (top_at heap.now slot).operands []) place) }
{
    let guard = heap.operand(slot, count - 1 - place);
    is_true(guard)
}

/// The alternative of this number, counted from 1, if it exists and is open.
pub(crate) fn open_alt<'a>(
    heap: &Heap,
    slot: u32,
    alts: &'a [AltCode],
    alt: u32,
) -> Option<&'a AltCode>
    requires slot { slot < length heap.now.objects }
    requires enough { length alts.now ≤ length (top_at heap.now slot).operands }
    requires few { length alts.now ≤ 64 }
    ensures { option_copied result ≡ offered_alt alts.now (taken (length alts.now) (top_at heap.now slot).operands []) alt }
{
    if alt == 0 || alt as usize > alts.len() {
        return None;
    }
    if is_open(heap, slot, alts.len() as u32, alt - 1) {
        Some(&alts[(alt - 1) as usize])
    } else {
        None
    }
}

/// Goes to the code of alternative `alt`, counted from 1, of a select. At any other instruction goes to the next place.
pub(crate) fn choose(heap: &mut Heap, slot: u32, instr: &Instr, alt: u32)
    requires slot { slot < length heap.old.objects }
    requires frame { 0 < length (object_at heap.old slot).frames }
    requires next { NextIs (top_at heap.old slot) instr.now }
    requires chooses { Chooses (top_at heap.old slot) instr.now alt }
    ensures { heap.new ≡ put_top heap.old slot (after_choice (top_at heap.old slot) alt (Some instr.now)) }
{
    match instr {
        Instr::Select { alts } => {
            let alts = alts.items();
            let to = alts[(alt - 1) as usize].at;
            heap.drop_operands(slot, alts.len() as u32);
            heap.set_at(slot, to);
        }
        _ => heap.advance(slot),
    }
}
