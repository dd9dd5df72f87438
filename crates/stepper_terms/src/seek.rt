//! The search for the redex of an expression. A function that can run out of memory reports `AllocError`.
ghost use Rattle.std.specs.Prelude.{◌≡◌, [], ◌∷◌, ◌++◌, ◌+◌, IfOk, IfSome, IfNone, false};
ghost use Rattle.pool_syntax.specs.TreeOf.{expression_of, expressions_of};
ghost use Rattle.pool_syntax.specs.Terms.{Arg, NoArgs, Prefix, Infix, Call, Send};
ghost use Rattle.pool_relation.specs.Reducible.{is_value};
ghost use Rattle.stepper_terms.specs.Parts.{operand, operands, placed, nested, stepped, ready, IsOpen, IsBelow};
ghost use Rattle.stepper_terms.specs.declared.seek.Step.TheVariants.{Into};
ghost use Rattle.stepper_terms.specs.Weights.{weight, weights};

use crate::contexts::{ExpressionContext, Operand, Ready};
use pool_syntax::Expr;
use run_types::{NameId, Op, Value};
use std::alloc::{AllocError, Global};

/// The value of an expression that is a literal, with its position.
pub fn literal(expr: &Expr) -> Option<Operand>
    ensures some { IfSome result (λ v. expression_of expr.now ≡ operand v) }
    ensures none { IfNone result (is_value (expression_of expr.now) ≡ false) }
{
    match expr {
        Expr::Int { value, pos } => Some(Operand {
            value: Value::Int(*value),
            pos: *pos,
        }),
        Expr::Bool { value, pos } => Some(Operand {
            value: Value::Bool(*value),
            pos: *pos,
        }),
        Expr::Nil { pos } => Some(Operand {
            value: Value::Nil,
            pos: *pos,
        }),
        _ => None,
    }
}

/// Evaluates the arguments at the front that are literals, and adds them to `done`. Reports the first that is no
/// literal, with those after it.
#[tactic(auto, using(crate::proofs::ContextPlug::operands_more))]
pub fn evaluate<'a>(
    args: &'a [Expr],
    done: &mut Vec<Operand>,
) -> Result<Option<(&'a Expr, &'a [Expr])>, AllocError>
    ensures some { IfOk result (λ r. IfSome r (λ s. operands done.new.items (Arg (expression_of s.0.now) (expressions_of s.1.now)) ≡ operands done.old.items (expressions_of args.now))) }
    ensures open { IfOk result (λ r. IfSome r (λ s. is_value (expression_of s.0.now) ≡ false)) }
    ensures all { IfOk result (λ r. IfNone r (operands done.new.items NoArgs ≡ operands done.old.items (expressions_of args.now))) }
{
    let mut rest = args;
    while let Some((first, others)) = rest.split_first() {
        match literal(first) {
            Some(value) => done.push(value)?,
            None => return Ok(Some((first, others))),
        }
        rest = others;
    }
    Ok(None)
}

/// A step of the search: the redex, or the part in which to search.
#[derive(Drop)]
pub enum Step<'a> {
    Found(Ready),
    Into(&'a Expr),
}

/// A search in this part, which is no literal. Its context is added to `places`.
#[tactic(auto, using(crate::proofs::ContextPlug::nested_more))]
#[inline(always)]
fn go_into<'a>(
    place: ExpressionContext<'a>,
    part: &'a Expr,
    places: &mut Vec<ExpressionContext<'a>>,
) -> Result<Step<'a>, AllocError>
    ensures { IfOk result (λ s. (s ≡ Into part.entry) × (nested places.new.items (expression_of part.now) ≡ nested places.old.items (placed place.entry (expression_of part.now)))) }
{
    places.push(place)?;
    Ok(Step::Into(part))
}

/// A step into the arguments of an own call.
#[tactic(auto, using(crate::proofs::Weights::weight_in))]
pub fn into_call<'a>(
    method: NameId,
    done: Vec<Operand>,
    args: &'a [Expr],
    pos: u32,
    places: &mut Vec<ExpressionContext<'a>>,
) -> Result<Step<'a>, AllocError>
    ensures same { IfOk result (λ s. nested places.new.items (stepped s) ≡ nested places.old.items (Call method.0 (operands done.items (expressions_of args.now)) pos)) }
    ensures open { IfOk result IsOpen }
    ensures below { IfOk result (IsBelow (weights (operands done.items (expressions_of args.now)) + 1)) }
{
    let mut done = done;
    match evaluate(args, &mut done)? {
        None => Ok(Step::Found(Ready::Call {
            method,
            args: done,
            pos,
        })),
        Some((first, rest)) => {
            let place = ExpressionContext::CallArgument {
                method,
                done,
                rest,
                pos,
            };
            go_into(place, first, places)
        }
    }
}

/// A step into the arguments of a send.
#[tactic(auto, using(crate::proofs::Weights::weight_in))]
pub fn into_send<'a>(
    to: Operand,
    method: NameId,
    done: Vec<Operand>,
    args: &'a [Expr],
    pos: u32,
    places: &mut Vec<ExpressionContext<'a>>,
) -> Result<Step<'a>, AllocError>
    ensures same { IfOk result (λ s. nested places.new.items (stepped s) ≡ nested places.old.items (Send (operand to) method.0 (operands done.items (expressions_of args.now)) pos)) }
    ensures open { IfOk result IsOpen }
    ensures below { IfOk result (IsBelow (weights (operands done.items (expressions_of args.now)) + 1)) }
{
    let mut done = done;
    match evaluate(args, &mut done)? {
        None => Ok(Step::Found(Ready::Send {
            to,
            method,
            args: done,
            pos,
        })),
        Some((first, rest)) => {
            let place = ExpressionContext::SendArgument {
                to,
                method,
                done,
                rest,
                pos,
            };
            go_into(place, first, places)
        }
    }
}

/// A step into the right operand.
pub fn into_right<'a>(
    op: Op,
    left: Operand,
    right: &'a Expr,
    pos: u32,
    places: &mut Vec<ExpressionContext<'a>>,
) -> Result<Step<'a>, AllocError>
    ensures same { IfOk result (λ s. nested places.new.items (stepped s) ≡ nested places.old.items (Infix op (operand left) (expression_of right.now) pos)) }
    ensures open { IfOk result IsOpen }
    ensures below { IfOk result (IsBelow (weight (expression_of right.now) + 1)) }
{
    if let Some(value) = literal(right) {
        return Ok(Step::Found(Ready::Infix {
            op,
            left,
            right: value,
            pos,
        }));
    }
    go_into(ExpressionContext::Right { op, left, pos }, right, places)
}

/// A step into the operand of a prefix operator.
fn into_operand<'a>(
    op: Op,
    arg: &'a Expr,
    pos: u32,
    places: &mut Vec<ExpressionContext<'a>>,
) -> Result<Step<'a>, AllocError>
    ensures same { IfOk result (λ s. nested places.new.items (stepped s) ≡ nested places.old.items (Prefix op (expression_of arg.now) pos)) }
    ensures open { IfOk result IsOpen }
    ensures below { IfOk result (IsBelow (weight (Prefix op (expression_of arg.now) pos))) }
{
    if let Some(value) = literal(arg) {
        return Ok(Step::Found(Ready::Prefix {
            op,
            arg: value,
            pos,
        }));
    }
    go_into(ExpressionContext::Prefix { op, pos }, arg, places)
}

/// A step into the operands of an infix operator.
fn into_left<'a>(
    op: Op,
    left: &'a Expr,
    right: &'a Expr,
    pos: u32,
    places: &mut Vec<ExpressionContext<'a>>,
) -> Result<Step<'a>, AllocError>
    ensures same { IfOk result (λ s. nested places.new.items (stepped s) ≡ nested places.old.items (Infix op (expression_of left.now) (expression_of right.now) pos)) }
    ensures open { IfOk result IsOpen }
    ensures below { IfOk result (IsBelow (weight (Infix op (expression_of left.now) (expression_of right.now) pos))) }
{
    if let Some(value) = literal(left) {
        return into_right(op, value, right, pos, places);
    }
    go_into(ExpressionContext::Left { op, right, pos }, left, places)
}

/// A step into the destination of a send, and then into its arguments.
fn into_destination<'a>(
    alloc: Global,
    to: &'a Expr,
    method: NameId,
    args: &'a [Expr],
    pos: u32,
    places: &mut Vec<ExpressionContext<'a>>,
) -> Result<Step<'a>, AllocError>
    ensures same { IfOk result (λ s. nested places.new.items (stepped s) ≡ nested places.old.items (Send (expression_of to.now) method.0 (expressions_of args.now) pos)) }
    ensures open { IfOk result IsOpen }
    ensures below { IfOk result (IsBelow (weight (Send (expression_of to.now) method.0 (expressions_of args.now) pos))) }
{
    if let Some(value) = literal(to) {
        return into_send(value, method, Vec::new(alloc), args, pos, places);
    }
    go_into(
        ExpressionContext::Destination { method, args, pos },
        to,
        places,
    )
}

/// One step of the search in an expression that is no literal.
#[tactic(auto, using(crate::proofs::ContextPlug::nested_more, crate::proofs::TreeLists::call_is, crate::proofs::TreeLists::send_is))]
fn into<'a>(
    alloc: Global,
    expr: &'a Expr,
    places: &mut Vec<ExpressionContext<'a>>,
) -> Result<Step<'a>, AllocError>
    requires { is_value (expression_of expr.now) ≡ false }
    ensures same { IfOk result (λ s. nested places.new.items (stepped s) ≡ nested places.old.items (expression_of expr.now)) }
    ensures open { IfOk result IsOpen }
    ensures below { IfOk result (IsBelow (weight (expression_of expr.now))) }
{
    match expr {
        Expr::Me { pos } => Ok(Step::Found(Ready::Me { pos: *pos })),
        Expr::Var { name, pos } => Ok(Step::Found(Ready::Variable {
            name: *name,
            pos: *pos,
        })),
        Expr::New { class, pos } => Ok(Step::Found(Ready::Create {
            class: *class,
            pos: *pos,
        })),
        Expr::Unary { op, arg, pos } => into_operand(*op, arg, *pos, places),
        Expr::Binary {
            op,
            left,
            right,
            pos,
        } => into_left(*op, left, right, *pos, places),
        Expr::Call { method, args, pos } => into_call(
            *method,
            Vec::new(alloc),
            args.items(),
            *pos,
            places,
        ),
        Expr::Send {
            to,
            method,
            args,
            pos,
        } => into_destination(alloc, to, *method, args.items(), *pos, places),
        Expr::Int { .. } | Expr::Bool { .. } | Expr::Nil { .. } => unreachable!(),
    }
}

/// The redex of an expression that is no literal. Its contexts are added to `places`, the innermost last.
pub fn seek<'a>(
    alloc: Global,
    expr: &'a Expr,
    places: &mut Vec<ExpressionContext<'a>>,
) -> Result<Ready, AllocError>
    requires { is_value (expression_of expr.now) ≡ false }
    ensures { IfOk result (λ r. nested places.new.items (ready r) ≡ nested places.old.items (expression_of expr.now)) }
{
    let mut expr = expr;
    loop {
        match into(alloc, expr, places)? {
            Step::Found(redex) => return Ok(redex),
            Step::Into(part) => expr = part,
        }
    }
}
