//! The effect of an instruction on a stack of sorts.
ghost use Rattle.std.specs.Prelude.{◌≡◌, option_map, IfSome};
ghost use Rattle.code_typing.specs.Sorts.{asked_of, left_by, operated_sorts, pop_returned, pop_sent, push_sort};
ghost use Rattle.code_typing.specs.declared.cell.Stacks.{Stacks as AStacks};
ghost use Rattle.code_verifier.specs.Effects.{called_by, created_by, given_back_by, left_stack, loaded_by, sent_by, sent_off_by, stored_by};
ghost use Rattle.code_verifier.specs.Scopes.{declared_of, scope_of, signature_of};
ghost use Rattle.code_typing.specs.StackEffects.{Holds, stack_at, stack_of};
ghost use Rattle.code_typing.specs.Chained.{sort_tree};

use crate::classes::Signature;
use crate::scope::Scope;
use code_semantics::Instr;
use code_typing::{
    Sort, Stacks, is_comparison, is_prefix, kind_sort, op_sort, operand_sort, result_sort,
};
use run_types::{Kind, NameId, Op};

/// The effect of an instruction: the stack without the operands
/// that it takes, and the sort that it then pushes, if any.
#[derive(Clone, Copy)]
pub struct Left {
    pub below: usize,
    pub pushed: Option<Sort>,
}

fn kept(below: Option<usize>) -> Option<Left>
    ensures left { (stacks : AStacks) → left_stack stacks result ≡ stack_at stacks below }
    ensures there { (stacks : AStacks) → IfSome below (λ n. Holds stacks n) → IfSome result (λ l. Holds stacks l.below) }
{
    Some(Left {
        below: below?,
        pushed: None,
    })
}

fn pushed(sort: Sort, below: Option<usize>) -> Option<Left>
    ensures left { (stacks : AStacks) → left_stack stacks result ≡ push_sort (sort_tree sort) (stack_at stacks below) }
    ensures there { (stacks : AStacks) → IfSome below (λ n. Holds stacks n) → IfSome result (λ l. Holds stacks l.below) }
{
    Some(Left {
        below: below?,
        pushed: Some(sort),
    })
}

/// Pushes the value of a variable of these kinds. Returns none if there is no such variable.
fn loaded(kinds: &[Kind], number: u32, stack: usize) -> Option<Left>
    ensures left { (stacks : AStacks) → left_stack stacks result ≡ loaded_by kinds.now number (stack_of stacks stack) }
    ensures there { (stacks : AStacks) → Holds stacks stack → IfSome result (λ l. Holds stacks l.below) }
{
    let kind = kinds.get(number as usize)?;
    pushed(kind_sort(*kind), Some(stack))
}

/// Pops the value for a variable of these kinds.
/// Returns none if there is no such variable, or if the value does not fit.
fn stored(stacks: &Stacks, kinds: &[Kind], number: u32, stack: usize) -> Option<Left>
    ensures left { left_stack stacks.now result ≡ stored_by kinds.now number (stack_of stacks.now stack) }
    ensures there { IfSome result (λ l. Holds stacks.now l.below) }
{
    let kind = kinds.get(number as usize)?;
    kept(stacks.pop_fitting(kind_sort(*kind), stack))
}

/// Pops the operands of an operator, and pushes its value. Returns none if they do not fit.
fn operated(stacks: &Stacks, op: Op, stack: usize) -> Option<Left>
    ensures left { left_stack stacks.now result ≡ operated_sorts op (stack_of stacks.now stack) }
    ensures there { IfSome result (λ l. Holds stacks.now l.below) }
{
    if is_comparison(op) {
        return pushed(Sort::Bool, stacks.pop_alike(stack));
    }
    let below = stacks.pop_fitting(operand_sort(op), stack);
    if is_prefix(op) {
        return pushed(op_sort(op), below);
    }
    pushed(op_sort(op), stacks.pop_fitting(operand_sort(op), below?))
}

/// Pops the arguments of an own call, and pushes its value.
/// Returns none if they do not fit, or if the method does not exist.
fn called(scope: &Scope<'_>, stacks: &Stacks, method: NameId, stack: usize) -> Option<Left>
    requires { Holds stacks.now stack }
    ensures left { left_stack stacks.now result ≡ called_by (declared_of scope.now.class.now) method (stack_of stacks.now stack) }
    ensures there { IfSome result (λ l. Holds stacks.now l.below) }
{
    let callee = scope.class.signature(method)?;
    pushed(
        result_sort(callee.result),
        stacks.pop_arguments(callee.params, stack),
    )
}

/// The method of this name with `count` parameters, if the class of a destination of this sort has it.
fn asked<'a>(
    scope: &Scope<'a>,
    to: Option<Sort>,
    method: NameId,
    count: u32,
) -> Option<Signature<'a>>
    ensures { option_map signature_of result ≡ asked_of scope.now.classes.now.file.now (option_map sort_tree to) method count }
{
    let Some(Sort::Class(class)) = to else {
        return None;
    };
    let callee = scope.classes.named(class)?.signature(method)?;
    if callee.params.len() == count as usize {
        Some(callee)
    } else {
        None
    }
}

/// Pops the arguments and the destination. Returns none if they do not fit.
fn pop_sent(stacks: &Stacks, callee: &Signature<'_>, stack: usize) -> Option<usize>
    requires { Holds stacks.now stack }
    ensures stack { stack_at stacks.now result ≡ pop_sent (stack_of stacks.now stack) (signature_of callee.now) }
    ensures there { IfSome result (λ n. Holds stacks.now n) }
{
    stacks.pop_any(stacks.pop_arguments(callee.params, stack)?)
}

/// Pops the arguments and the destination of a call, and pushes its value. Returns none if they do not fit.
fn sent(
    scope: &Scope<'_>,
    stacks: &Stacks,
    method: NameId,
    count: u32,
    stack: usize,
) -> Option<Left>
    requires { Holds stacks.now stack }
    ensures left { left_stack stacks.now result ≡ sent_by scope.now.classes.now.file.now method count (stack_of stacks.now stack) }
    ensures there { IfSome result (λ l. Holds stacks.now l.below) }
{
    let callee = asked(scope, stacks.sort_below(count, stack), method, count)?;
    pushed(result_sort(callee.result), pop_sent(stacks, &callee, stack))
}

/// Pops the arguments and the destination of a message. Returns none if they do not fit.
fn sent_off(
    scope: &Scope<'_>,
    stacks: &Stacks,
    method: NameId,
    count: u32,
    stack: usize,
) -> Option<Left>
    requires { Holds stacks.now stack }
    ensures left { left_stack stacks.now result ≡ sent_off_by scope.now.classes.now.file.now method count (stack_of stacks.now stack) }
    ensures there { IfSome result (λ l. Holds stacks.now l.below) }
{
    let callee = asked(scope, stacks.sort_below(count, stack), method, count)?;
    kept(pop_sent(stacks, &callee, stack))
}

/// Pops a method's value. Returns none if it does not fit, or if it is not the only operand.
fn returned(stacks: &Stacks, value: Option<Sort>, stack: usize) -> Option<Left>
    ensures left { left_stack stacks.now result ≡ pop_returned (option_map sort_tree value) (stack_of stacks.now stack) }
    ensures there { IfSome result (λ l. Holds stacks.now l.below) }
{
    let below = stacks.pop_fitting(value?, stack)?;
    if stacks.depth(below) == 0 {
        kept(Some(below))
    } else {
        None
    }
}

/// Keeps a method's value on the stack. Returns none if it does not fit, or if it is not the only operand.
fn given_back(stacks: &Stacks, value: Option<Sort>, stack: usize) -> Option<Left>
    requires { Holds stacks.now stack }
    ensures left { left_stack stacks.now result ≡ given_back_by (option_map sort_tree value) (stack_of stacks.now stack) }
    ensures there { IfSome result (λ l. Holds stacks.now l.below) }
{
    let _rest = returned(stacks, value, stack)?;
    kept(Some(stack))
}

/// Pushes the name of a new object of the class. Returns none if the class does not exist.
fn created(scope: &Scope<'_>, class: NameId, stack: usize) -> Option<Left>
    ensures left { (stacks : AStacks) → left_stack stacks result ≡ created_by scope.now.classes.now.file.now class (stack_of stacks stack) }
    ensures there { (stacks : AStacks) → Holds stacks stack → IfSome result (λ l. Holds stacks l.below) }
{
    let _place = scope.classes.place(class)?;
    pushed(Sort::Class(class), Some(stack))
}

/// The effect of an instruction on a stack; none if the instruction cannot take the stack.
pub fn left_by(scope: &Scope<'_>, stacks: &Stacks, instr: &Instr, stack: usize) -> Option<Left>
    requires { Holds stacks.now stack }
    ensures left { left_stack stacks.now result ≡ left_by (scope_of scope.now) instr.now (stack_of stacks.now stack) }
    ensures there { IfSome result (λ l. Holds stacks.now l.below) }
{
    match instr {
        Instr::PushInt(_) => pushed(Sort::Int, Some(stack)),
        Instr::PushBool(_) => pushed(Sort::Bool, Some(stack)),
        Instr::PushNil => pushed(Sort::Nil, Some(stack)),
        Instr::LoadI(number) => loaded(scope.class.kinds.vars.items(), *number, stack),
        Instr::LoadT(number) => loaded(scope.temps, *number, stack),
        Instr::SelfRef => pushed(Sort::Class(scope.class.code.name), Some(stack)),
        Instr::StoreI(number) => { stored(stacks, scope.class.kinds.vars.items(), *number, stack) }
        Instr::StoreT(number) => stored(stacks, scope.temps, *number, stack),
        Instr::Oper(op) => operated(stacks, *op, stack),
        Instr::Pop => kept(stacks.pop_any(stack)),
        Instr::Branch(_) => kept(stacks.pop_fitting(Sort::Bool, stack)),
        Instr::Call(method) => called(scope, stacks, *method, stack),
        Instr::Ret => returned(stacks, scope.value, stack),
        Instr::Post => given_back(stacks, scope.value, stack),
        Instr::New(class) => created(scope, *class, stack),
        Instr::Send { method, count } => sent(scope, stacks, *method, *count, stack),
        Instr::Async { method, count } => sent_off(scope, stacks, *method, *count, stack),
        Instr::Write => kept(stacks.pop_value(stack)),
        Instr::Select { alts } => kept(stacks.pop_guards(alts.items().len(), stack)),
        Instr::Jump(_) | Instr::Loop | Instr::WriteText(_) | Instr::Answer { .. } | Instr::Halt =>
            kept(Some(stack)),
    }
}
