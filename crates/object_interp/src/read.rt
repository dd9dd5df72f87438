//! The current instruction of an object, the code of its innermost frame, and its operands.
ghost use Rattle.std.specs.Prelude.{◌≡◌, ◌<◌, ◌≤◌, ◌+◌, ◌*◌, [], IsTrue, Some, is_some, length, slice_get};
ghost use Rattle.std.specs.Option.{unwrap_or};
ghost use Rattle.run_types.specs.Operands.{taken, dropped, top};
ghost use Rattle.code_semantics.specs.Step.{class_from, method_named};
ghost use Rattle.code_semantics.specs.Proper.{IsProper, IsProperClass};
ghost use Rattle.code_semantics.specs.declared.unit.MethodCode.{MethodCode};
ghost use Rattle.node_heap.specs.Heaps.{object_at, top_at};
ghost use Rattle.object_interp.specs.Bursts.{name_in};
ghost use Rattle.object_interp.specs.Tops.{HasTop, class_in, code_in, instr_in};

use code_semantics::{ClassCode, Instr, Unit};
use node_heap::Heap;
use run_types::{Args, NameId, Value, object_name};

/// The class of the slot's object.
pub(crate) fn class_at<'a>(unit: &'a Unit, heap: &Heap, slot: u32) -> &'a ClassCode
    requires slot { slot < length heap.now.objects }
    requires top { HasTop unit.now (object_at heap.now slot) }
    ensures { class_in unit.now (object_at heap.now slot) ≡ Some result.now }
{
    &unit.classes.items()[heap.class_of(slot) as usize]
}

/// The code of the innermost frame.
pub(crate) fn code_at<'a>(unit: &'a Unit, heap: &Heap, slot: u32) -> &'a [Instr]
    requires slot { slot < length heap.now.objects }
    requires top { HasTop unit.now (object_at heap.now slot) }
    ensures { result.now ≡ code_in unit.now (object_at heap.now slot) }
{
    let class = class_at(unit, heap, slot);
    match heap.head(slot).method {
        None => class.body.code.items(),
        Some(method) => class.methods.items()[method as usize].code.items(),
    }
}

/// The current instruction.
pub(crate) fn instr_at<'a>(unit: &'a Unit, heap: &Heap, slot: u32) -> &'a Instr
    requires proper { IsProper unit.now }
    requires slot { slot < length heap.now.objects }
    requires top { HasTop unit.now (object_at heap.now slot) }
    ensures { instr_in unit.now (object_at heap.now slot) ≡ Some result.now }
{
    &code_at(unit, heap, slot)[heap.at(slot) as usize]
}

/// The operand of the innermost frame below the last `above`.
pub(crate) fn value_at(heap: &Heap, slot: u32, above: u32) -> Value
    requires slot { slot < length heap.now.objects }
    requires place { above < length (top_at heap.now slot).operands }
    ensures { result ≡ top (dropped above (top_at heap.now slot).operands) }
{
    heap.operand(slot, above)
}

/// The last `count` operands, at most 8, in the order in which they were pushed.
pub(crate) fn last_values(heap: &Heap, slot: u32, count: u32) -> Args
    requires slot { slot < length heap.now.objects }
    requires few { count ≤ 8 }
    requires enough { count ≤ length (top_at heap.now slot).operands }
    ensures { result ≡ taken count (top_at heap.now slot).operands [] }
{
    let mut args = Args::make();
    for done in 0..count {
        args.add(heap.operand(slot, count - 1 - done));
    }
    args
}

/// The name of the slot's object.
pub(crate) fn name_at(heap: &Heap, slot: u32) -> u32
    requires { slot < length heap.now.objects }
    ensures { result ≡ name_in heap.now slot }
{
    // The minimum is `slot`. It shows the prover that the slot is below 65536.
    let placed = heap.objects();
    object_name(heap.node(), slot.min(placed))
}

/// The index of the first class of this name, or 0 if the unit has none.
pub(crate) fn class_place(unit: &Unit, name: NameId) -> u32
    requires { IsProper unit.now }
    ensures { result ≡ unwrap_or (class_from 0 unit.now.classes name) 0 }
{
    for (place, class) in unit.classes.items().iter().enumerate() {
        if class.name.0 == name.0 {
            return place as u32;
        }
    }
    0
}

/// The index of the class's first method of this name. Requires that it exists.
pub(crate) fn method_place(class: &ClassCode, name: NameId) -> u32
    requires few { length class.now.methods ≤ 64 }
    requires has { IsTrue (is_some (method_named (Some class.now) name)) }
    ensures { (m : MethodCode) × (slice_get class.now.methods result ≡ Some m) × (method_named (Some class.now) name ≡ Some (record { place = result; code = m })) }
{
    for (place, method) in class.methods.items().iter().enumerate() {
        if method.name.0 == name.0 {
            return place as u32;
        }
    }
    unreachable!()
}
