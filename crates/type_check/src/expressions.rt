//! The check of expressions, and their sorts.
ghost use Rattle.std.specs.Prelude.{◌≡◌, ◌≤◌, ◌+◌, ◌++◌, map, min, slice_get};
ghost use Rattle.pool_syntax.specs.FaultNumbers.{unknown_variable};
ghost use Rattle.pool_syntax.specs.Limits.{most_operands};
ghost use Rattle.pool_syntax.specs.TreeOf.{class_tree, expression_of, expressions_of};
ghost use Rattle.pool_syntax.specs.Typing.{arguments_faults, destination_faults, expression_faults, limit_faults, method_faults, method_sort, name_sort, params_of, position, sent_method, send_sort};
ghost use Rattle.pool_syntax.specs.Typing.{sort_of, is_broken_name, fault_if, no_result_faults, is_comparable, counted};
ghost use Rattle.type_check.specs.NotedFaults.{Notes};
ghost use Rattle.type_check.specs.CheckerScopes.{sort_tree, scope_of, method_of, argument_faults, operands_faults, creation_sort, creation_faults};

use crate::classes::Classes;
use crate::fault::{ClassFault, note};
use crate::scope::Scope;
use crate::sort::{Placed, Sort, kind_sort, note_misfit, note_no_result, op_sort, operand_sort};
use pool_syntax::{Expr, Method, Named, Var};
use run_types::{NameId, Op};

/// Reports the token of an expression.
fn position(expr: &Expr) -> u32
    ensures { result ≡ position (expression_of expr.now) }
{
    match expr {
        Expr::Int { pos, .. } => *pos,
        Expr::Bool { pos, .. } => *pos,
        Expr::Nil { pos } => *pos,
        Expr::Me { pos } => *pos,
        Expr::Var { pos, .. } => *pos,
        Expr::New { pos, .. } => *pos,
        Expr::Unary { pos, .. } => *pos,
        Expr::Binary { pos, .. } => *pos,
        Expr::Call { pos, .. } => *pos,
        Expr::Send { pos, .. } => *pos,
    }
}

/// An expression must begin with fewer operands held than this.
const MOST_OPERANDS: u8 = 64;

/// Adds one operand held. The count stops at 64, which represents every count from 64 on.
pub fn one_more(held: u8) -> u8
    requires { held ≤ most_operands }
    ensures { result ≡ min (held + 1) most_operands }
{
    (held + 1).min(MOST_OPERANDS)
}

fn note_limit(held: u8, token: u32, first: &mut Option<ClassFault>)
    ensures { Notes first.old first.new (limit_faults held token) }
{
    if held >= MOST_OPERANDS {
        note(first, ClassFault::Limit { token });
    }
}

/// Reports the sort of a name.
fn name_sort(scope: &Scope, name: NameId) -> Sort
    ensures { sort_tree result ≡ name_sort (scope_of scope.now) name.0 }
{
    match scope.kind_of(name) {
        Some(kind) => kind_sort(scope.classes, kind),
        None => Sort::Broken,
    }
}

/// Reports the sort of a name, and notes its token if the name is not declared.
pub fn note_name(scope: &Scope, name: NameId, token: u32, first: &mut Option<ClassFault>) -> Sort
    ensures sort { sort_tree result ≡ name_sort (scope_of scope.now) name.0 }
    ensures first { Notes first.old first.new (fault_if (is_broken_name (scope_of scope.now) name.0) token unknown_variable) }
{
    match scope.kind_of(name) {
        Some(kind) => kind_sort(scope.classes, kind),
        None => {
            note(first, ClassFault::UnknownVariable { token });
            Sort::Broken
        }
    }
}

/// Reports the sort of a `new`, and notes its token if the class does not exist.
fn note_creation(scope: &Scope, class: NameId, token: u32, first: &mut Option<ClassFault>) -> Sort
    ensures sort { sort_tree result ≡ creation_sort (scope_of scope.now) class.0 }
    ensures first { Notes first.old first.new (creation_faults (scope_of scope.now) class.0 token) }
{
    match scope.classes.named(class) {
        Some(_) => Sort::Class(class),
        None => {
            note(first, ClassFault::UnknownClass { token });
            Sort::Broken
        }
    }
}

/// Notes the faults of the operands of an operator.
fn note_operands(op: Op, left: Placed, right: Placed, first: &mut Option<ClassFault>)
    ensures { Notes first.old first.new (operands_faults op (sort_tree left.sort) left.token (sort_tree right.sort) right.token) }
{
    match op {
        Op::Same | Op::Differs => {
            note_no_result(left, first);
            note_no_result(right, first);
            if !left.sort.is_comparable(right.sort) {
                note(first, ClassFault::TypeDiffers { token: right.token });
            }
        }
        _ => {
            note_misfit(left, operand_sort(op), first);
            note_misfit(right, operand_sort(op), first);
        }
    }
}

/// Notes a call of a method that does not exist, or that has another number of parameters.
fn note_call(callee: Option<&Method>, token: u32, count: usize, first: &mut Option<ClassFault>)
    ensures { Notes first.old first.new (method_faults (method_of callee.entry) count token) }
{
    match callee {
        None => note(first, ClassFault::UnknownMethod { token }),
        Some(callee) => {
            if callee.params.items().len() != count {
                note(first, ClassFault::ArgumentCount { token });
            }
        }
    }
}

/// Reports the sort of a call of this method.
fn method_sort(classes: &Classes, method: Option<&Method>) -> Sort
    ensures { sort_tree result ≡ method_sort (map class_tree classes.now.list.now) (method_of method.entry) }
{
    match method {
        None => Sort::Broken,
        Some(method) => match method.result {
            None => Sort::NoResult,
            Some(kind) => kind_sort(classes, kind),
        },
    }
}

/// Reports the parameters of a method, or none if it does not exist.
pub fn params_of<'a>(method: Option<&'a Method>) -> &'a [Var]
    ensures { result.now ≡ params_of (method_of method.entry) }
{
    match method {
        None => &[],
        Some(method) => method.params.items(),
    }
}

/// Reports the method of a send to a destination of this sort, if there is one.
fn sent_method<'a>(scope: &Scope<'a>, to: Sort, name: NameId) -> Option<&'a Method>
    ensures method { method_of result ≡ sent_method (scope_of scope.now) (sort_tree to) name.0 }
    ensures sort { send_sort (map class_tree scope.now.classes.now.list.now) (sort_tree to) name.0 ≡ method_sort (map class_tree scope.now.classes.now.list.now) (method_of result) }
{
    match to {
        Sort::Class(class) => scope.classes.method(class, name),
        _ => None,
    }
}

/// Reports the method of a send, if there is one. Notes the faults of the destination, and of the method at its name.
pub fn note_destination<'a>(
    scope: &Scope<'a>,
    to: Placed,
    method: Named,
    count: usize,
    first: &mut Option<ClassFault>,
) -> Option<&'a Method>
    ensures method { method_of result ≡ sent_method (scope_of scope.now) (sort_tree to.sort) method.name.0 }
    ensures sort { send_sort (map class_tree scope.now.classes.now.list.now) (sort_tree to.sort) method.name.0 ≡ method_sort (map class_tree scope.now.classes.now.list.now) (method_of result) }
    ensures first { Notes first.old first.new (destination_faults (scope_of scope.now) (sort_tree to.sort) method.name.0 count method.pos to.token) }
{
    let callee = sent_method(scope, to.sort, method.name);
    let token = to.token;
    match to.sort {
        Sort::Class(_) => note_call(callee, method.pos, count, first),
        Sort::Broken => {}
        Sort::NoResult => note(first, ClassFault::NoResult { token }),
        Sort::Int | Sort::Bool | Sort::Nil => note(first, ClassFault::TypeDiffers { token }),
    }
    callee
}

/// Reports the variable at the index, if there is one.
pub fn variable_at(vars: &[Var], place: usize) -> Option<Var>
    ensures { result ≡ slice_get vars.now place }
{
    vars.get(place).copied()
}

/// Notes an argument that does not fit its parameter, or that has no value.
fn note_argument(
    classes: &Classes,
    parameter: Option<Var>,
    at: Placed,
    first: &mut Option<ClassFault>,
)
    ensures { Notes first.old first.new (argument_faults (map class_tree classes.now.list.now) parameter (sort_tree at.sort) at.token) }
{
    match parameter {
        None => note_no_result(at, first),
        Some(parameter) => note_misfit(at, kind_sort(classes, parameter.kind), first),
    }
}

/// Reports the sort of an expression. Notes its faults, without those against what its place requires.
#[cycle(expressions)]
fn expression(scope: &Scope, held: u8, expr: &Expr, first: &mut Option<ClassFault>) -> Sort
    requires { held ≤ most_operands }
    ensures sort { sort_tree result ≡ sort_of (scope_of scope.now) (expression_of expr.now) }
    ensures first { Notes first.old first.new (expression_faults (scope_of scope.now) held (expression_of expr.now)) }
{
    note_limit(held, position(expr), first);
    match expr {
        Expr::Int { .. } => Sort::Int,
        Expr::Bool { .. } => Sort::Bool,
        Expr::Nil { .. } => Sort::Nil,
        Expr::Me { .. } => Sort::Class(scope.own.name.name),
        Expr::Var { name, pos } => note_name(scope, *name, *pos, first),
        Expr::New { class, pos } => note_creation(scope, *class, *pos, first),
        Expr::Unary { op, arg, .. } => {
            let arg = placed(scope, held, arg, first);
            note_misfit(arg, operand_sort(*op), first);
            op_sort(*op)
        }
        Expr::Binary {
            op,
            left,
            right,
            ..
        } => {
            let left = placed(scope, held, left, first);
            let right = placed(scope, one_more(held), right, first);
            note_operands(*op, left, right, first);
            op_sort(*op)
        }
        Expr::Call { method, args, pos } => {
            let callee = scope.own_method(*method);
            note_call(callee, *pos, args.items().len(), first);
            called(scope, held, callee, args.items(), first)
        }
        Expr::Send {
            to,
            method,
            args,
            pos,
        } => {
            let to = placed(scope, held, to, first);
            let method = Named {
                name: *method,
                pos: *pos,
            };
            let callee = note_destination(scope, to, method, args.items().len(), first);
            called(scope, one_more(held), callee, args.items(), first)
        }
    }
}

/// Reports the sort and the token of an expression that begins with `held` operands held, where 64 represents every
/// count from 64 on. Notes its faults, without those against what its place requires.
#[cycle(expressions)]
pub fn placed(scope: &Scope, held: u8, expr: &Expr, first: &mut Option<ClassFault>) -> Placed
    requires { held ≤ most_operands }
    ensures sort { sort_tree result.sort ≡ sort_of (scope_of scope.now) (expression_of expr.now) }
    ensures token { result.token ≡ position (expression_of expr.now) }
    ensures first { Notes first.old first.new (expression_faults (scope_of scope.now) held (expression_of expr.now)) }
{
    Placed {
        sort: expression(scope, held, expr, first),
        token: position(expr),
    }
}

/// Reports the sort of a call with these arguments. Notes their faults.
#[cycle(expressions)]
fn called(
    scope: &Scope,
    held: u8,
    callee: Option<&Method>,
    args: &[Expr],
    first: &mut Option<ClassFault>,
) -> Sort
    requires { held ≤ most_operands }
    ensures sort { sort_tree result ≡ method_sort (map class_tree scope.now.classes.now.list.now) (method_of callee.entry) }
    ensures first { Notes first.old first.new (arguments_faults (scope_of scope.now) held (params_of (method_of callee.entry)) (expressions_of args.now)) }
{
    arguments(scope, held, params_of(callee), args, first);
    method_sort(scope.classes, callee)
}

/// Notes the faults of arguments, of which the first begins with `held` operands held.
#[cycle(expressions)]
pub fn arguments(
    scope: &Scope,
    held: u8,
    params: &[Var],
    args: &[Expr],
    first: &mut Option<ClassFault>,
)
    requires { held ≤ most_operands }
    ensures { Notes first.old first.new (arguments_faults (scope_of scope.now) held params.now (expressions_of args.now)) }
{
    let mut now_held = held;
    for (i, arg) in args.iter().enumerate() {
        let arg = placed(scope, now_held, arg, first);
        note_argument(scope.classes, variable_at(params, i), arg, first);
        now_held = one_more(now_held);
    }
}
