//! The next action of an object.
ghost use Rattle.std.specs.Prelude.{◌≡◌, ◌<◌, ◌≤◌, List, [], Some, length, if◌then◌else◌};
ghost use Rattle.std.specs.List.{list_any};
ghost use Rattle.run_types.specs.Values.{is_bool, is_true as holds, not_bool};
ghost use Rattle.code_semantics.specs.declared.unit.AltCode.{AltCode};
ghost use Rattle.code_semantics.specs.declared.unit.Unit.{Unit as Code};
ghost use Rattle.run_types.specs.Operands.{taken};
ghost use Rattle.code_semantics.specs.Kinds as C;
ghost use Rattle.code_semantics.specs.Kinds.{arity, instr_kind, operated, outcome_kind, return_kind, select_kind};
ghost use Rattle.code_semantics.specs.Proper.{IsProper};
ghost use Rattle.node_heap.specs.Heaps.{object_at, top_at};
ghost use Rattle.object_interp.specs.Offers.{hand_of, steps_alone};
ghost use Rattle.object_interp.specs.Tops.{HasTop, instr_in};

use crate::moves::{is_true, outcome};
use crate::read::{class_place, last_values, value_at};
use crate::types::{Hand, Need};
use code_semantics::{Instr, Unit};
use node_heap::Heap;
use operators::Answer;
use run_types::{Error, Item, Op, Serves, Value};

/// A run-time error.
fn fault(error: Error) -> Hand
    ensures { result ≡ Hand.At (Need.Fault error) }
{
    Hand::At(Need::Fault { error })
}

/// The action at an operator: a local transition, or the run-time error that its operands cause.
fn operator_hand(heap: &Heap, slot: u32, op: Op) -> Hand
    requires slot { slot < length heap.now.objects }
    requires enough { arity op ≤ length (top_at heap.now slot).operands }
    ensures { (u : Code) → result ≡ hand_of u (outcome_kind (operated op (top_at heap.now slot).operands)) }
{
    match outcome(heap, slot, op) {
        Answer::Gives(_) => Hand::Local,
        Answer::Fails(error) => fault(error),
        Answer::WrongSort => fault(Error::NilOperand),
    }
}

/// The action at a branch on this condition.
fn branch_hand(condition: Value) -> Hand
    ensures { (u : Code) → result ≡ hand_of u (if is_bool condition then C.Local else C.Fault Error.NilOperand) }
{
    match condition {
        Value::Bool(_) => Hand::Local,
        _ => fault(Error::NilOperand),
    }
}

/// The action at the end of a method's value: a return to its caller, or a local transition.
fn return_hand(serves: Serves, value: Value) -> Hand
    ensures { (u : Code) → result ≡ hand_of u (return_kind serves value) }
{
    match serves {
        Serves::Caller { name, number } => Hand::At(Need::Return {
            caller: name,
            number,
            value,
        }),
        _ => Hand::Local,
    }
}

/// Reports whether one of the last `count` operands is not a truth value.
fn has_wrong_guard(heap: &Heap, slot: u32, count: u32) -> bool
    requires slot { slot < length heap.now.objects }
    requires enough { count ≤ length (top_at heap.now slot).operands }
    ensures { result ≡ list_any not_bool (taken count (top_at heap.now slot).operands []) }
{
    for done in 0..count {
        match heap.operand(slot, count - 1 - done) {
            Value::Bool(_) => {}
            _ => return true,
        }
    }
    false
}

/// Reports whether one of the last `count` operands is true.
fn has_open_guard(heap: &Heap, slot: u32, count: u32) -> bool
    requires slot { slot < length heap.now.objects }
    requires enough { count ≤ length (top_at heap.now slot).operands }
    ensures { result ≡ list_any holds (taken count (top_at heap.now slot).operands []) }
{
    for done in 0..count {
        let guard = heap.operand(slot, count - 1 - done);
        if is_true(guard) {
            return true;
        }
    }
    false
}

/// The action at a select of `count` alternatives.
fn select_hand(heap: &Heap, slot: u32, count: u32) -> Hand
    requires slot { slot < length heap.now.objects }
    requires enough { count ≤ length (top_at heap.now slot).operands }
    ensures { (u : Code) (alts : List AltCode) → result ≡ hand_of u (select_kind alts (taken count (top_at heap.now slot).operands [])) }
{
    if has_wrong_guard(heap, slot, count) {
        fault(Error::NilOperand)
    } else if has_open_guard(heap, slot, count) {
        Hand::At(Need::Select)
    } else {
        fault(Error::NoOpenGuard)
    }
}

/// The action at the current instruction.
pub(crate) fn hand_at(unit: &Unit, heap: &Heap, slot: u32, instr: &Instr) -> Hand
    requires proper { IsProper unit.now }
    requires slot { slot < length heap.now.objects }
    requires top { HasTop unit.now (object_at heap.now slot) }
    requires at { instr_in unit.now (object_at heap.now slot) ≡ Some instr.now }
    ensures { result ≡ hand_of unit.now (instr_kind (top_at heap.now slot) (Some instr.now)) }
{
    match instr {
        Instr::Oper(op) => operator_hand(heap, slot, *op),
        Instr::Branch(_) => branch_hand(value_at(heap, slot, 0)),
        Instr::Ret | Instr::Post => return_hand(heap.head(slot).serves, value_at(heap, slot, 0)),
        Instr::New(class) => Hand::At(Need::New {
            class: class_place(unit, *class),
        }),
        Instr::Send { method, count } => match value_at(heap, slot, *count) {
            Value::Ref(to) => Hand::At(Need::Send {
                to,
                method: *method,
                args: last_values(heap, slot, *count),
            }),
            _ => fault(Error::NilDestination),
        },
        Instr::Async { method, count } => match value_at(heap, slot, *count) {
            Value::Ref(to) => Hand::At(Need::Async {
                to,
                method: *method,
                args: last_values(heap, slot, *count),
            }),
            _ => fault(Error::NilDestination),
        },
        Instr::Write => Hand::At(Need::Write {
            item: Item::Value(value_at(heap, slot, 0)),
        }),
        Instr::WriteText(text) => Hand::At(Need::Write {
            item: Item::Text(*text),
        }),
        Instr::Answer { .. } => Hand::At(Need::Answer),
        Instr::Select { alts } => select_hand(heap, slot, alts.items().len() as u32),
        Instr::Halt => Hand::At(Need::Halted),
        _ => Hand::Local,
    }
}

/// Reports whether a select of `count` alternatives causes a run-time error: a guard is not a truth value, or none is
/// true.
fn select_fails(heap: &Heap, slot: u32, count: u32) -> bool
    requires slot { slot < length heap.now.objects }
    requires enough { count ≤ length (top_at heap.now slot).operands }
    ensures { (alts : List AltCode) → result ≡ steps_alone (select_kind alts (taken count (top_at heap.now slot).operands [])) }
{
    if has_wrong_guard(heap, slot, count) {
        return true;
    }
    !has_open_guard(heap, slot, count)
}

/// Reports whether the current instruction makes a step without a message and without a choice.
#[inline]
pub(crate) fn alone_at(unit: &Unit, heap: &Heap, slot: u32, instr: &Instr) -> bool
    requires proper { IsProper unit.now }
    requires slot { slot < length heap.now.objects }
    requires top { HasTop unit.now (object_at heap.now slot) }
    requires at { instr_in unit.now (object_at heap.now slot) ≡ Some instr.now }
    ensures { result ≡ steps_alone (instr_kind (top_at heap.now slot) (Some instr.now)) }
{
    match instr {
        Instr::Halt | Instr::Answer { .. } => false,
        Instr::Select { alts } => select_fails(heap, slot, alts.items().len() as u32),
        _ => true,
    }
}
