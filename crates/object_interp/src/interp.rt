//! The instructions of one object.
ghost use Rattle.std.specs.Prelude.{if◌then◌else◌, ◌==◌, ◌≡◌, ◌<◌, ◌≤◌, ◌↔◌, ℕ, true, false, length, Some, IsErr, OnOk, OnErr, Err};
ghost use Rattle.std.specs.Option.{option_copied};
ghost use Rattle.run_types.specs.declared.frames.CodeObject.{CodeObject};
ghost use Rattle.code_semantics.specs.Kinds.{code_kind, instr_kind};
ghost use Rattle.code_semantics.specs.Step.{code_given, code_gone_on, code_picked, code_serving, is_own};
ghost use Rattle.code_semantics.specs.Proper.{IsProper};
ghost use Rattle.code_semantics.specs.StepInstructions.{FitsUnit, IsAtStep};
ghost use Rattle.node_heap.specs.Heaps.{object_at, put_object, top_at, frames_used};
ghost use Rattle.object_interp.specs.Offers.{IsAsking, IsChoosing, IsGoingOn, IsSelecting, answers_to, hand_of, is_open_plain, need_of, offer_at, offers_at, open_names, steps_alone};
ghost use Rattle.object_interp.specs.Bursts.{IsBurst, is_local};
ghost use Rattle.object_interp.specs.SettledObject.{settled_at};
ghost use Rattle.object_interp.specs.Tops.{HasTop, instr_in};

use crate::choices::{choose, open_alt};
use crate::hands::{alone_at, hand_at};
use crate::moves::{begin, frame_is_free, operands_asked, pass, settle, step};
use crate::read::{class_at, code_at, instr_at, method_place};
use crate::types::{Burst, Hand};
use code_semantics::{Instr, Unit};
use node_heap::{Heap, HeapFull};
use run_types::{Args, List, NameId, Serves, Value};

/// The answer of a burst that ends after `done` steps at a call for which no frame is free.
fn stopped_full(done: u32) -> Burst
    ensures { result ≡ (if done == 0 then Burst.FramesFull else Burst.Local done) }
{
    if done == 0 {
        Burst::FramesFull
    } else {
        Burst::Local { steps: done }
    }
}

/// The answer of a burst that ends after `done` steps at an instruction that makes no local transition.
fn stopped_at(unit: &Unit, heap: &Heap, slot: u32, instr: &Instr, done: u32) -> Burst
    requires proper { IsProper unit.now }
    requires slot { slot < length heap.now.objects }
    requires top { HasTop unit.now (object_at heap.now slot) }
    requires at { instr_in unit.now (object_at heap.now slot) ≡ Some instr.now }
    requires stops { is_local (instr_kind (top_at heap.now slot) (Some instr.now)) ≡ false }
    ensures { result ≡ (if done == 0 then Burst.At (need_of unit.now (instr_kind (top_at heap.now slot) (Some instr.now))) else Burst.Local done) }
{
    if done > 0 {
        return Burst::Local { steps: done };
    }
    match hand_at(unit, heap, slot, instr) {
        Hand::At(need) => Burst::At(need),
        Hand::Local => unreachable!(),
    }
}

/// Makes local transitions of the slot's object, and runs the silent instructions after each. Requires a positive
/// quantum. It stops after `quantum` transitions, at an instruction that makes none, or at a call for which no frame is
/// free. If it makes no transition, the answer says why. It is not inlined, so that its loop has the processor's
/// registers for itself.
#[inline(never)]
pub fn burst(unit: &Unit, heap: &mut Heap, slot: u32, quantum: u32) -> Burst
    requires proper { IsProper unit.now }
    requires slot { slot < length heap.old.objects }
    requires fits { FitsUnit unit.now (object_at heap.old slot) }
    requires rests { IsAtStep unit.now (object_at heap.old slot) }
    requires quantum { 1 ≤ quantum }
    ensures burst { IsBurst unit.now heap.old slot quantum result heap.new }
    ensures fits { FitsUnit unit.now (object_at heap.new slot) }
    ensures rests { IsAtStep unit.now (object_at heap.new slot) }
{
    let mut code = code_at(unit, heap, slot);
    for done in 0..quantum {
        let instr = &code[heap.at(slot) as usize];
        if !frame_is_free(heap, instr) {
            return stopped_full(done);
        }
        match step(unit, heap, slot, code, instr) {
            Some(next) => code = next,
            None => return stopped_at(unit, heap, slot, instr, done),
        }
    }
    Burst::Local { steps: quantum }
}

/// The next action of the slot's object, which is at a step instruction.
pub fn at_hand(unit: &Unit, heap: &Heap, slot: u32) -> Hand
    requires proper { IsProper unit.now }
    requires slot { slot < length heap.now.objects }
    requires fits { FitsUnit unit.now (object_at heap.now slot) }
    requires rests { IsAtStep unit.now (object_at heap.now slot) }
    ensures { result ≡ hand_of unit.now (code_kind unit.now (object_at heap.now slot)) }
{
    hand_at(unit, heap, slot, instr_at(unit, heap, slot))
}

/// Reports whether the slot's object makes a step without a message and without a choice. Its body is then not over. It
/// is at no answer, and at a select only if the guards cause an error.
#[inline]
pub fn can_step_alone(unit: &Unit, heap: &Heap, slot: u32) -> bool
    requires proper { IsProper unit.now }
    requires slot { slot < length heap.now.objects }
    requires fits { FitsUnit unit.now (object_at heap.now slot) }
    requires rests { IsAtStep unit.now (object_at heap.now slot) }
    ensures { result ≡ steps_alone (code_kind unit.now (object_at heap.now slot)) }
{
    alone_at(unit, heap, slot, instr_at(unit, heap, slot))
}

/// Runs the silent instructions of an object that was just placed, up to a step instruction.
pub fn to_step(unit: &Unit, heap: &mut Heap, slot: u32)
    requires proper { IsProper unit.now }
    requires slot { slot < length heap.old.objects }
    requires fits { FitsUnit unit.now (object_at heap.old slot) }
    ensures settled { heap.new ≡ put_object heap.old slot (settled_at unit.now (object_at heap.old slot)) }
    ensures fits { FitsUnit unit.now (object_at heap.new slot) }
    ensures rests { IsAtStep unit.now (object_at heap.new slot) }
{
    settle(unit, heap, slot);
}

/// The methods that alternative `alt`, counted from 1, answers. An answer is the single alternative 1. None exactly if
/// the alternative is plain, is not open, or does not exist.
pub fn answer_names<'a>(
    unit: &'a Unit,
    heap: &Heap,
    slot: u32,
    alt: u32,
) -> Option<&'a List<NameId>>
    requires proper { IsProper unit.now }
    requires slot { slot < length heap.now.objects }
    requires fits { FitsUnit unit.now (object_at heap.now slot) }
    requires rests { IsAtStep unit.now (object_at heap.now slot) }
    ensures { option_copied result ≡ open_names (offer_at (offers_at unit.now (object_at heap.now slot)) alt) }
{
    match instr_at(unit, heap, slot) {
        Instr::Answer { names } => { if alt == 1 { Some(names) } else { None } }
        Instr::Select { alts } => match open_alt(heap, slot, alts.items(), alt) {
            Some(alternative) => match &alternative.answer {
                Some(names) => Some(names),
                None => None,
            },
            None => None,
        },
        _ => None,
    }
}

/// Reports whether alternative `alt`, counted from 1, exists, is plain and is open.
pub fn plain_alt(unit: &Unit, heap: &Heap, slot: u32, alt: u32) -> bool
    requires proper { IsProper unit.now }
    requires slot { slot < length heap.now.objects }
    requires fits { FitsUnit unit.now (object_at heap.now slot) }
    requires rests { IsAtStep unit.now (object_at heap.now slot) }
    ensures { result ≡ is_open_plain (offer_at (offers_at unit.now (object_at heap.now slot)) alt) }
{
    match instr_at(unit, heap, slot) {
        Instr::Select { alts } => match open_alt(heap, slot, alts.items(), alt) {
            Some(alternative) => alternative.answer.is_none(),
            None => false,
        },
        _ => false,
    }
}

/// The number of alternatives of the current instruction, at most 64: 1 at an answer, and 0 at neither answer nor
/// select.
pub fn alts(unit: &Unit, heap: &Heap, slot: u32) -> u32
    requires proper { IsProper unit.now }
    requires slot { slot < length heap.now.objects }
    requires fits { FitsUnit unit.now (object_at heap.now slot) }
    requires rests { IsAtStep unit.now (object_at heap.now slot) }
    ensures count { result ≡ length (offers_at unit.now (object_at heap.now slot)) }
    ensures few { result ≤ 64 }
{
    match instr_at(unit, heap, slot) {
        Instr::Answer { .. } => 1,
        Instr::Select { alts } => alts.items().len() as u32,
        _ => 0,
    }
}

/// Gives the object the value of its call, or the name of its new object. Requires an object at a call or at a request
/// for a new object. The value replaces the operands of the request. Then the silent instructions are run.
pub fn resume_with(unit: &Unit, heap: &mut Heap, slot: u32, value: Value)
    requires proper { IsProper unit.now }
    requires slot { slot < length heap.old.objects }
    requires fits { FitsUnit unit.now (object_at heap.old slot) }
    requires rests { IsAtStep unit.now (object_at heap.old slot) }
    requires asking { IsAsking (code_kind unit.now (object_at heap.old slot)) }
    ensures given { heap.new ≡ put_object heap.old slot (code_given unit.now (object_at heap.old slot) value) }
    ensures fits { FitsUnit unit.now (object_at heap.new slot) }
    ensures rests { IsAtStep unit.now (object_at heap.new slot) }
{
    let taken = operands_asked(instr_at(unit, heap, slot));
    heap.replace(slot, taken, value);
    settle(unit, heap, slot);
}

/// Continues after an asynchronous message was sent, a value was written, or a value was returned. A frame that
/// returned its value at its last instruction is removed. A frame that returned it earlier stays, and serves no caller.
pub fn go_on(unit: &Unit, heap: &mut Heap, slot: u32)
    requires proper { IsProper unit.now }
    requires slot { slot < length heap.old.objects }
    requires fits { FitsUnit unit.now (object_at heap.old slot) }
    requires rests { IsAtStep unit.now (object_at heap.old slot) }
    requires going_on { IsGoingOn (code_kind unit.now (object_at heap.old slot)) }
    ensures gone_on { heap.new ≡ put_object heap.old slot (code_gone_on unit.now (object_at heap.old slot)) }
    ensures fits { FitsUnit unit.now (object_at heap.new slot) }
    ensures rests { IsAtStep unit.now (object_at heap.new slot) }
{
    let instr = instr_at(unit, heap, slot);
    pass(heap, slot, instr);
    settle(unit, heap, slot);
}

/// Chooses the plain alternative `alt` of a select, counted from 1. Requires that it is open.
pub fn pick(unit: &Unit, heap: &mut Heap, slot: u32, alt: u32)
    requires proper { IsProper unit.now }
    requires slot { slot < length heap.old.objects }
    requires fits { FitsUnit unit.now (object_at heap.old slot) }
    requires rests { IsAtStep unit.now (object_at heap.old slot) }
    requires selecting { IsSelecting (code_kind unit.now (object_at heap.old slot)) }
    requires plain { is_open_plain (offer_at (offers_at unit.now (object_at heap.old slot)) alt) ≡ true }
    ensures picked { heap.new ≡ put_object heap.old slot (code_picked unit.now (object_at heap.old slot) alt) }
    ensures fits { FitsUnit unit.now (object_at heap.new slot) }
    ensures rests { IsAtStep unit.now (object_at heap.new slot) }
{
    let instr = instr_at(unit, heap, slot);
    choose(heap, slot, instr, alt);
    settle(unit, heap, slot);
}

/// Starts a method through alternative `alt`, counted from 1. Requires an open alternative that answers the method.
/// `serves` says who receives the value. Returns `Frames`, and changes nothing, exactly if the limit of frames is in
/// use. No other error occurs.
pub fn enter(
    unit: &Unit,
    heap: &mut Heap,
    slot: u32,
    alt: u32,
    method: NameId,
    args: &Args,
    serves: Serves,
) -> Result<(), HeapFull>
    requires proper { IsProper unit.now }
    requires slot { slot < length heap.old.objects }
    requires fits { FitsUnit unit.now (object_at heap.old slot) }
    requires rests { IsAtStep unit.now (object_at heap.old slot) }
    requires choosing { IsChoosing (code_kind unit.now (object_at heap.old slot)) }
    requires answers { answers_to (open_names (offer_at (offers_at unit.now (object_at heap.old slot)) alt)) method ≡ true }
    requires serves { is_own serves ≡ false }
    ensures ok { OnOk result ((y : CodeObject) × (code_serving unit.now (object_at heap.old slot) alt method args.now serves ≡ Some y) × (heap.new ≡ put_object heap.old slot y)) }
    ensures err { OnErr result ((result ≡ Err HeapFull.Frames) × (heap.new ≡ heap.old)) }
    ensures full { IsErr result ↔ (frames_used heap.old ≡ heap.old.most_frames) }
    ensures fits { FitsUnit unit.now (object_at heap.new slot) }
    ensures rests { IsAtStep unit.now (object_at heap.new slot) }
{
    if heap.frames() == heap.frame_limit() {
        return Err(HeapFull::Frames);
    }
    let class = class_at(unit, heap, slot);
    let place = method_place(class, method);
    let instr = instr_at(unit, heap, slot);
    choose(heap, slot, instr, alt);
    begin(
        heap,
        slot,
        place,
        &class.methods.items()[place as usize],
        args,
        serves,
    );
    settle(unit, heap, slot);
    Ok(())
}
