//! One instruction, and the silent instructions after it.
ghost use Rattle.std.specs.Prelude.{◌≡◌, ◌<◌, ◌≤◌, ◌+◌, ◌^◌, ◌≢◌, true, false, suc, [], ◌∷◌, IsTrue, Some, None, IfSome, IfNone, is_some, length, slice_get, take};
ghost use Rattle.run_types.specs.Values.{is_bool, is_prefix, is_true as holds};
ghost use Rattle.operators.specs.Operated.{outcome_of};
ghost use Rattle.run_types.specs.declared.frames.Frame.{Frame};
ghost use Rattle.code_semantics.specs.declared.unit.MethodCode.{MethodCode};
ghost use Rattle.run_types.specs.Operands.{top, below, dropped, padded};
ghost use Rattle.code_semantics.specs.Frames.{next, post_passed, silent, settled, go_on_with};
ghost use Rattle.code_semantics.specs.Kinds.{operated, arity, instr_kind, outcome_kind, return_kind};
ghost use Rattle.code_semantics.specs.declared.unit.Unit.{Unit as Code};
ghost use Rattle.code_semantics.specs.Step.{asked, begun, code_stepped, is_own, method_named, outcome_value};
ghost use Rattle.code_semantics.specs.Proper.{IsProper};
ghost use Rattle.code_semantics.specs.StepInstructions.{FitsUnit, IsAtStep};
ghost use Rattle.node_heap.specs.Heaps.{object_at, put_object, top_at, put_top, top_in, under_top, frames_used, nils};
ghost use Rattle.object_interp.specs.Bursts.{name_in, is_local};
ghost use Rattle.object_interp.specs.Moves.{Passes, RunsTo, branched, call_fits, ended, entered, gone, moved, replaced, stays_in_frame};
ghost use Rattle.object_interp.specs.SettledObject.{settled_at};
ghost use Rattle.object_interp.specs.Tops.{HasTop, class_in, code_in, instr_in, over};

use crate::read::{class_at, code_at, instr_at, last_values, method_place, name_at, value_at};
use code_semantics::{Instr, MethodCode, Unit};
use node_heap::{FrameHead, Heap, HeapFull};
use operators::{Answer, on_ints, operate, operate_one};
use run_types::{Args, NameId, Op, Serves, Value};

/// Reports whether a value is true.
pub(crate) fn is_true(value: Value) -> bool
    ensures { result ≡ holds value }
{
    match value {
        Value::Bool(held) => held,
        _ => false,
    }
}

/// Pops a condition. Goes to the next place if it is true, and else to the place `to`.
fn go(heap: &mut Heap, slot: u32, to: u32)
    requires slot { slot < length heap.old.objects }
    requires place { suc (top_at heap.old slot).at < 2 ^ 32 }
    requires one { 0 < length (top_at heap.old slot).operands }
    ensures { heap.new ≡ put_top heap.old slot (branched (top_at heap.old slot) to) }
{
    let condition = heap.pop_next(slot);
    if !is_true(condition) {
        heap.set_at(slot, to);
    }
}

/// Makes a branch if its condition is a truth value, and reports whether it is.
fn branch(heap: &mut Heap, slot: u32, to: u32) -> bool
    requires slot { slot < length heap.old.objects }
    requires place { suc (top_at heap.old slot).at < 2 ^ 32 }
    requires one { 0 < length (top_at heap.old slot).operands }
    ensures local { result ≡ is_bool (top (top_at heap.old slot).operands) }
    ensures made { result ≡ true → heap.new ≡ put_top heap.old slot (branched (top_at heap.old slot) to) }
    ensures same { result ≡ false → heap.new ≡ heap.old }
{
    match value_at(heap, slot, 0) {
        Value::Bool(_) => {
            go(heap, slot, to);
            true
        }
        _ => false,
    }
}

/// The number of operands of an operator.
fn operands_of(op: Op) -> u32
    ensures { result ≡ arity op }
{
    match op {
        Op::Neg | Op::Not => 1,
        _ => 2,
    }
}

/// The outcome of an operator for the last operands.
pub(crate) fn outcome(heap: &Heap, slot: u32, op: Op) -> Answer
    requires slot { slot < length heap.now.objects }
    requires enough { arity op ≤ length (top_at heap.now slot).operands }
    ensures { outcome_of result ≡ operated op (top_at heap.now slot).operands }
{
    match op {
        Op::Neg | Op::Not => operate_one(op, value_at(heap, slot, 0)),
        _ => operate(op, value_at(heap, slot, 1), value_at(heap, slot, 0)),
    }
}

/// Replaces the last operands by the value of an operator, and reports whether it gives one. It is not inlined: its
/// answer is in memory, and a function that inlined it would pay for that at each call.
#[inline(never)]
fn apply_any(heap: &mut Heap, slot: u32, op: Op) -> bool
    requires slot { slot < length heap.old.objects }
    requires place { suc (top_at heap.old slot).at < 2 ^ 32 }
    requires enough { arity op ≤ length (top_at heap.old slot).operands }
    requires room { length (top_at heap.old slot).operands < 64 + arity op }
    ensures local { result ≡ is_local (outcome_kind (operated op (top_at heap.old slot).operands)) }
    ensures made { result ≡ true → heap.new ≡ put_top heap.old slot (replaced (top_at heap.old slot) (arity op) (outcome_value (operated op (top_at heap.old slot).operands))) }
    ensures same { result ≡ false → heap.new ≡ heap.old }
{
    match outcome(heap, slot, op) {
        Answer::Gives(value) => {
            heap.replace(slot, operands_of(op), value);
            true
        }
        _ => false,
    }
}

/// Does the same for an infix operator, whose operands are nearly always integers.
fn apply_infix(heap: &mut Heap, slot: u32, op: Op) -> bool
    requires infix { is_prefix op ≡ false }
    requires slot { slot < length heap.old.objects }
    requires place { suc (top_at heap.old slot).at < 2 ^ 32 }
    requires enough { arity op ≤ length (top_at heap.old slot).operands }
    requires room { length (top_at heap.old slot).operands < 64 + arity op }
    ensures local { result ≡ is_local (outcome_kind (operated op (top_at heap.old slot).operands)) }
    ensures made { result ≡ true → heap.new ≡ put_top heap.old slot (replaced (top_at heap.old slot) (arity op) (outcome_value (operated op (top_at heap.old slot).operands))) }
    ensures same { result ≡ false → heap.new ≡ heap.old }
{
    match (value_at(heap, slot, 1), value_at(heap, slot, 0)) {
        (Value::Int(x), Value::Int(y)) => match on_ints(op, x, y) {
            Answer::Gives(value) => {
                heap.replace(slot, 2, value);
                true
            }
            _ => false,
        },
        _ => apply_any(heap, slot, op),
    }
}

/// Does the same for any operator.
fn apply(heap: &mut Heap, slot: u32, op: Op) -> bool
    requires slot { slot < length heap.old.objects }
    requires place { suc (top_at heap.old slot).at < 2 ^ 32 }
    requires enough { arity op ≤ length (top_at heap.old slot).operands }
    requires room { length (top_at heap.old slot).operands < 64 + arity op }
    ensures local { result ≡ is_local (outcome_kind (operated op (top_at heap.old slot).operands)) }
    ensures made { result ≡ true → heap.new ≡ put_top heap.old slot (replaced (top_at heap.old slot) (arity op) (outcome_value (operated op (top_at heap.old slot).operands))) }
    ensures same { result ≡ false → heap.new ≡ heap.old }
{
    match op {
        Op::Neg | Op::Not => apply_any(heap, slot, op),
        _ => apply_infix(heap, slot, op),
    }
}

/// Sets the parameters of the innermost frame to the arguments, in order. Requires that its temps are all nil.
fn fill(heap: &mut Heap, slot: u32, params: u32, args: &Args)
    requires slot { slot < length heap.old.objects }
    requires frame { 0 < length (object_at heap.old slot).frames }
    requires params { params ≤ length (top_at heap.old slot).temps }
    requires fresh { (top_at heap.old slot).temps ≡ nils (length (top_at heap.old slot).temps) }
    ensures { heap.new ≡ put_top heap.old slot (record (top_at heap.old slot) { temps = padded (length (top_at heap.old slot).temps) (take params args.now) }) }
{
    let values = args.values();
    let count = params.min(args.len() as u32);
    for place in 0..count {
        heap.store_temp(slot, place, values[place as usize]);
    }
}

/// Pushes the frame of the class's method `place`, with these arguments. A missing argument is nil, and a surplus one
/// is dropped. Requires a free frame.
pub(crate) fn begin(
    heap: &mut Heap,
    slot: u32,
    place: u32,
    method: &MethodCode,
    args: &Args,
    serves: Serves,
)
    requires slot { slot < length heap.old.objects }
    requires temps { method.now.temps ≤ 32 }
    requires params { method.now.params ≤ method.now.temps }
    requires free { frames_used heap.old ≢ heap.old.most_frames }
    ensures { heap.new ≡ put_object heap.old slot (over (object_at heap.old slot) (begun (record { place = place; code = method.now }) args.now serves) (object_at heap.old slot).frames) }
{
    let head = FrameHead {
        method: Some(place),
        temps: method.temps,
        serves,
    };
    match heap.push_frame(slot, head) {
        Ok(()) => fill(heap, slot, method.params, args),
        Err(_) => unreachable!(),
    }
}

/// Calls the object's own method of this name, with the last operands as its arguments. Requires a free frame.
fn call(unit: &Unit, heap: &mut Heap, slot: u32, name: NameId)
    requires proper { IsProper unit.now }
    requires slot { slot < length heap.old.objects }
    requires fits { FitsUnit unit.now (object_at heap.old slot) }
    requires at { instr_in unit.now (object_at heap.old slot) ≡ Some (Instr.Call name) }
    requires free { frames_used heap.old ≢ heap.old.most_frames }
    ensures { heap.new
        ≡ put_object heap.old slot
        (entered (object_at heap.old slot) (top_at heap.old slot) (under_top (object_at heap.old slot).frames) (method_named (class_in unit.now (object_at heap.old slot)) name)) }
{
    let class = class_at(unit, heap, slot);
    let place = method_place(class, name);
    let method = &class.methods.items()[place as usize];
    let args = last_values(heap, slot, method.params);
    heap.drop_operands(slot, method.params);
    heap.advance(slot);
    begin(heap, slot, place, method, &args, Serves::Own);
}

/// Ends a method. If the object called it itself, its value goes to the frame below.
pub(crate) fn end(heap: &mut Heap, slot: u32)
    requires slot { slot < length heap.old.objects }
    requires frames { 1 < length (object_at heap.old slot).frames }
    requires one { 0 < length (top_at heap.old slot).operands }
    requires room { IsTrue (is_own (top_at heap.old slot).serves) → length (top_in (under_top (object_at heap.old slot).frames)).operands < 64 }
    ensures { heap.new ≡ put_object heap.old slot (ended (object_at heap.old slot) (top_at heap.old slot) (under_top (object_at heap.old slot).frames)) }
{
    let value = value_at(heap, slot, 0);
    let head = heap.pop_frame(slot);
    match head.serves {
        Serves::Own => heap.push(slot, value),
        _ => {}
    }
}

/// Reports whether no caller waits for the value of the innermost frame.
fn is_unserved(heap: &Heap, slot: u32) -> bool
    requires slot { slot < length heap.now.objects }
    ensures { (value : _) → result ≡ is_local (return_kind (top_at heap.now slot).serves value) }
{
    match heap.head(slot).serves {
        Serves::Caller { name: _, number: _ } => false,
        _ => true,
    }
}

/// Ends a method if no caller waits for its value, and reports whether it did.
fn leave(heap: &mut Heap, slot: u32) -> bool
    requires slot { slot < length heap.old.objects }
    requires frames { 1 < length (object_at heap.old slot).frames }
    requires one { 0 < length (top_at heap.old slot).operands }
    requires room { IsTrue (is_own (top_at heap.old slot).serves) → length (top_in (under_top (object_at heap.old slot).frames)).operands < 64 }
    ensures local { (value : _) → result ≡ is_local (return_kind (top_at heap.old slot).serves value) }
    ensures made { result ≡ true → heap.new ≡ put_object heap.old slot (ended (object_at heap.old slot) (top_at heap.old slot) (under_top (object_at heap.old slot).frames)) }
    ensures same { result ≡ false → heap.new ≡ heap.old }
{
    if is_unserved(heap, slot) {
        end(heap, slot);
        true
    } else {
        false
    }
}

/// Reports whether the instruction is not a call, or a frame is free.
pub(crate) fn frame_is_free(heap: &Heap, instr: &Instr) -> bool
    ensures free { result ≡ call_fits heap.now instr.now }
    ensures within { frames_used heap.now ≤ heap.now.most_frames }
{
    let used = heap.frames();
    match instr {
        Instr::Call(_) => used < heap.frame_limit(),
        _ => true,
    }
}

/// Makes the local transition of the current instruction, if it makes one, and reports whether it does.
fn act(unit: &Unit, heap: &mut Heap, slot: u32, instr: &Instr) -> bool
    requires proper { IsProper unit.now }
    requires slot { slot < length heap.old.objects }
    requires fits { FitsUnit unit.now (object_at heap.old slot) }
    requires at { instr_in unit.now (object_at heap.old slot) ≡ Some instr.now }
    requires free { call_fits heap.old instr.now ≡ true }
    ensures local { result ≡ is_local (instr_kind (top_at heap.old slot) (Some instr.now)) }
    ensures made { result ≡ true
        → heap.new
        ≡ put_object heap.old slot
        (moved (class_in unit.now (object_at heap.old slot)) (name_in heap.old slot) (object_at heap.old slot) (top_at heap.old slot) (under_top (object_at heap.old slot).frames) instr.now) }
    ensures same { result ≡ false → heap.new ≡ heap.old }
{
    match instr {
        Instr::LoadI(var) => {
            let value = heap.load_var(slot, *var);
            heap.push_next(slot, value);
        }
        Instr::LoadT(temp) => {
            let value = heap.load_temp(slot, *temp);
            heap.push_next(slot, value);
        }
        Instr::SelfRef => {
            let name = name_at(heap, slot);
            heap.push_next(slot, Value::Ref(name));
        }
        Instr::StoreI(var) => {
            let value = heap.pop_next(slot);
            heap.store_var(slot, *var, value);
        }
        Instr::StoreT(temp) => {
            let value = heap.pop_next(slot);
            heap.store_temp(slot, *temp, value);
        }
        Instr::Oper(op) => return apply(heap, slot, *op),
        Instr::Pop => {
            heap.pop_next(slot);
        }
        Instr::Branch(to) => return branch(heap, slot, *to),
        Instr::Loop => heap.advance(slot),
        Instr::Call(name) => call(unit, heap, slot, *name),
        Instr::Ret => return leave(heap, slot),
        Instr::Post => return is_unserved(heap, slot),
        Instr::New(_) | Instr::Send { .. } | Instr::Async { .. } => return false,
        Instr::Write | Instr::WriteText(_) => return false,
        Instr::Answer { .. } | Instr::Select { .. } | Instr::Halt => return false,
        _ => {}
    }
    true
}

/// Passes the end of a method's value if no caller waits for it, and reports whether it does.
fn pass_value(heap: &mut Heap, slot: u32) -> bool
    requires slot { slot < length heap.old.objects }
    requires next { (g : Frame) → post_passed (top_at heap.old slot) (top_at heap.old slot).serves ≡ Some g → g.at < 2 ^ 32 }
    ensures { RunsTo heap.old slot (post_passed (top_at heap.old slot) (top_at heap.old slot).serves) result heap.new }
{
    match heap.head(slot).serves {
        Serves::Caller { .. } => false,
        _ => {
            heap.advance(slot);
            true
        }
    }
}

/// Runs the instruction if it is silent, and reports whether it is.
fn run_silent(heap: &mut Heap, slot: u32, instr: &Instr) -> bool
    requires slot { slot < length heap.old.objects }
    requires next { (g : Frame) → silent (top_at heap.old slot) (Some instr.now) ≡ Some g → (g.at < 2 ^ 32) × (length g.operands ≤ 64) }
    ensures { RunsTo heap.old slot (silent (top_at heap.old slot) (Some instr.now)) result heap.new }
{
    match instr {
        Instr::PushInt(value) => heap.push_next(slot, Value::Int(*value)),
        Instr::PushBool(value) => heap.push_next(slot, Value::Bool(*value)),
        Instr::PushNil => heap.push_next(slot, Value::Nil),
        Instr::Jump(to) => heap.set_at(slot, *to),
        Instr::Post => return pass_value(heap, slot),
        _ => return false,
    }
    true
}

/// Runs the silent instructions from the current place, in the code of the innermost frame. It is inlined, since most
/// steps have none after them.
#[inline(always)]
fn settle_in(heap: &mut Heap, slot: u32, code: &[Instr])
    requires slot { slot < length heap.old.objects }
    requires top { (u : Code) × IsProper u × HasTop u (object_at heap.old slot) × (code.now ≡ code_in u (object_at heap.old slot)) }
    ensures { heap.new ≡ put_top heap.old slot (settled code.now (top_at heap.old slot)) }
{
    for _turn in 0..code.len() {
        let at = heap.at(slot);
        if !run_silent(heap, slot, &code[at as usize]) {
            return;
        }
    }
}

/// Runs the silent instructions from the current place.
pub(crate) fn settle(unit: &Unit, heap: &mut Heap, slot: u32)
    requires proper { IsProper unit.now }
    requires slot { slot < length heap.old.objects }
    requires top { HasTop unit.now (object_at heap.old slot) }
    ensures { heap.new ≡ put_object heap.old slot (settled_at unit.now (object_at heap.old slot)) }
{
    let code = code_at(unit, heap, slot);
    settle_in(heap, slot, code);
}

/// The code of the innermost frame after a local transition; `code` is the code of the frame before it.
fn code_after<'a>(
    unit: &'a Unit,
    heap: &Heap,
    slot: u32,
    code: &'a [Instr],
    instr: &Instr,
) -> &'a [Instr]
    requires slot { slot < length heap.now.objects }
    requires top { HasTop unit.now (object_at heap.now slot) }
    requires code { stays_in_frame instr.now ≡ true → code.now ≡ code_in unit.now (object_at heap.now slot) }
    ensures { result.now ≡ code_in unit.now (object_at heap.now slot) }
{
    match instr {
        Instr::Call(_) | Instr::Ret => code_at(unit, heap, slot),
        _ => code,
    }
}

/// Makes the local transition of the current instruction, if it makes one, and runs the silent instructions after it.
/// Returns the code of the innermost frame after that. Returns None, and changes nothing, if the instruction makes no
/// local transition.
pub(crate) fn step<'a>(
    unit: &'a Unit,
    heap: &mut Heap,
    slot: u32,
    code: &'a [Instr],
    instr: &Instr,
) -> Option<&'a [Instr]>
    requires proper { IsProper unit.now }
    requires slot { slot < length heap.old.objects }
    requires fits { FitsUnit unit.now (object_at heap.old slot) }
    requires rests { IsAtStep unit.now (object_at heap.old slot) }
    requires code { code.now ≡ code_in unit.now (object_at heap.old slot) }
    requires at { instr_in unit.now (object_at heap.old slot) ≡ Some instr.now }
    requires free { call_fits heap.old instr.now ≡ true }
    ensures local { is_some result ≡ is_local (instr_kind (top_at heap.old slot) (Some instr.now)) }
    ensures made { IfSome result
        (λ c. (heap.new ≡ put_object heap.old slot (code_stepped unit.now (name_in heap.old slot) (object_at heap.old slot))) × (c.now ≡ code_in unit.now (object_at heap.new slot))) }
    ensures same { IfNone result (heap.new ≡ heap.old) }
{
    if !act(unit, heap, slot, instr) {
        return None;
    }
    let code = code_after(unit, heap, slot, code, instr);
    settle_in(heap, slot, code);
    Some(code)
}

/// The number of operands that a request for a new object or a call takes.
pub(crate) fn operands_asked(instr: &Instr) -> u32
    requires { asked (Some instr.now) < 2 ^ 32 }
    ensures { result ≡ asked (Some instr.now) }
{
    match instr {
        Instr::Send { count, .. } => *count + 1,
        _ => 0,
    }
}

/// Continues after the request of the current instruction was done.
pub(crate) fn pass(heap: &mut Heap, slot: u32, instr: &Instr)
    requires slot { slot < length heap.old.objects }
    requires frame { 0 < length (object_at heap.old slot).frames }
    requires passes { Passes (object_at heap.old slot) instr.now }
    ensures { heap.new ≡ put_object heap.old slot (gone (object_at heap.old slot) (top_at heap.old slot) (under_top (object_at heap.old slot).frames) instr.now) }
{
    match instr {
        Instr::Write => {
            heap.pop_next(slot);
        }
        Instr::WriteText(_) => heap.advance(slot),
        Instr::Async { count, .. } => {
            heap.drop_operands(slot, *count + 1);
            heap.advance(slot);
        }
        Instr::Ret => {
            heap.pop_frame(slot);
        }
        Instr::Post => {
            heap.set_serves(slot, Serves::Sender);
            heap.advance(slot);
        }
        _ => {}
    }
}
