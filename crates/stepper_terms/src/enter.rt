//! The search for the next redex, from a statement or from a value that has replaced a redex. Each function reports
//! `AllocError` if memory runs out.
ghost use Rattle.std.specs.Prelude.{◌≡◌, [], ◌∷◌, ◌++◌, IfOk, IfSome, IfNone, false};
ghost use Rattle.pool_syntax.specs.TreeOf.{expression_of, expressions_of, statement_of, statements_of};
ghost use Rattle.pool_syntax.specs.Terms as T;
ghost use Rattle.pool_relation.specs.Reducible.{is_value};
ghost use Rattle.stepper_terms.specs.Parts.{operand, operands, placed, nested, stepped, ready, guarded, alternatives, slotted, left, content, ahead, expression_seen, Running, IsOpen};
ghost use Rattle.pool_syntax.specs.Terms.{append};

use crate::contexts::{
    ExpressionContext, Focus, Guarded, Operand, Ready, Segment, StatementContext, Task,
};
use crate::seek::{Step, evaluate, into_call, into_right, into_send, literal, seek};
use pool_syntax::{Alt, Expr, Named, Stmt};
use std::alloc::{AllocError, Global};

/// Fills this place with the value: reports the redex of the filled expression, or the part in which to search. The
/// contexts of that part are added to `places`.
fn resume<'a>(
    alloc: Global,
    value: Operand,
    place: ExpressionContext<'a>,
    places: &mut Vec<ExpressionContext<'a>>,
) -> Result<Step<'a>, AllocError>
    ensures same { IfOk result (λ s. nested places.new.items (stepped s) ≡ nested places.old.items (placed place.entry (operand value))) }
    ensures open { IfOk result IsOpen }
{
    match place {
        ExpressionContext::Prefix { op, pos } => Ok(Step::Found(Ready::Prefix {
            op,
            arg: value,
            pos,
        })),
        ExpressionContext::Left { op, right, pos } => into_right(op, value, right, pos, places),
        ExpressionContext::Right { op, left, pos } => Ok(Step::Found(Ready::Infix {
            op,
            left,
            right: value,
            pos,
        })),
        ExpressionContext::CallArgument {
            method,
            done,
            rest,
            pos,
        } => {
            let mut done = done;
            done.push(value)?;
            into_call(method, done, rest, pos, places)
        }
        ExpressionContext::Destination { method, args, pos } => into_send(
            value,
            method,
            Vec::new(alloc),
            args,
            pos,
            places,
        ),
        ExpressionContext::SendArgument {
            to,
            method,
            done,
            rest,
            pos,
        } => {
            let mut done = done;
            done.push(value)?;
            into_send(to, method, done, rest, pos, places)
        }
    }
}

/// The redex of the expression in which the value fills this place. Its contexts are added to `places`.
fn find<'a>(
    alloc: Global,
    value: Operand,
    place: ExpressionContext<'a>,
    places: &mut Vec<ExpressionContext<'a>>,
) -> Result<Ready, AllocError>
    ensures { IfOk result (λ r. nested places.new.items (ready r) ≡ nested places.old.items (placed place.entry (operand value))) }
{
    match resume(alloc, value, place, places)? {
        Step::Found(redex) => Ok(redex),
        Step::Into(expr) => seek(alloc, expr, places),
    }
}

/// The focus at the redex of an expression in this slot. The expression is no literal.
fn begin<'a>(
    alloc: Global,
    expr: &'a Expr,
    slot: StatementContext<'a>,
    rest: Vec<Segment<'a>>,
) -> Result<Focus<'a>, AllocError>
    requires { is_value (expression_of expr.now) ≡ false }
    ensures { IfOk result (λ n. content n ≡ slotted slot.entry (left rest.entry.items) (expression_of expr.now)) }
{
    let mut places = Vec::new(alloc);
    let redex = seek(alloc, expr, &mut places)?;
    Ok(Focus::Expression {
        redex,
        places,
        slot,
        rest,
    })
}

/// The focus in an asynchronous send: at the redex of its next argument, or at the send if all arguments are
/// evaluated.
fn into_async<'a>(
    alloc: Global,
    to: Operand,
    method: Named,
    done: Vec<Operand>,
    args: &'a [Expr],
    rest: Vec<Segment<'a>>,
) -> Result<Focus<'a>, AllocError>
    ensures { IfOk result (λ n. content n ≡ Running (T.Then (T.Async (operand to) method.name.0 method.pos (operands done.items (expressions_of args.now))) (left rest.entry.items))) }
{
    let mut done = done;
    match evaluate(args, &mut done)? {
        None => Ok(Focus::Statement {
            task: Task::Async {
                to,
                method,
                args: done,
            },
            rest,
        }),
        Some((expr, others)) => {
            let slot = StatementContext::Argument {
                to,
                method,
                done,
                rest: others,
            };
            begin(alloc, expr, slot, rest)
        }
    }
}

/// Evaluates the guards at the front that are literals, and adds them to `done`. Reports the first alternative whose
/// guard is no literal, with those after it.
#[tactic(auto, using(crate::proofs::ContextPlug::guarded_more))]
fn guards<'a>(
    alts: &'a [Alt],
    done: &mut Vec<Guarded<'a>>,
) -> Result<Option<(&'a Alt, &'a [Alt])>, AllocError>
    ensures some { IfOk result
        (λ r. IfSome r
        (λ s. guarded done.new.items (T.Alt (expression_of s.0.now.guard) s.0.now.answer (statements_of s.0.now.work) (alternatives s.1.now)) ≡ guarded done.old.items (alternatives alts.now))) }
    ensures open { IfOk result (λ r. IfSome r (λ s. is_value (expression_of s.0.now.guard) ≡ false)) }
    ensures all { IfOk result (λ r. IfNone r (guarded done.new.items T.NoAlts ≡ guarded done.old.items (alternatives alts.now))) }
{
    let mut rest = alts;
    while let Some((alt, others)) = rest.split_first() {
        match literal(&alt.guard) {
            Some(guard) => done.push(Guarded { guard, alt })?,
            None => return Ok(Some((alt, others))),
        }
        rest = others;
    }
    Ok(None)
}

/// The focus in a select: at the redex of its next guard, or at the select if all guards are evaluated.
fn into_select<'a>(
    alloc: Global,
    done: Vec<Guarded<'a>>,
    alts: &'a [Alt],
    rest: Vec<Segment<'a>>,
) -> Result<Focus<'a>, AllocError>
    ensures { IfOk result (λ n. content n ≡ Running (T.Then (T.Select (guarded done.entry.items (alternatives alts.now))) (left rest.entry.items))) }
{
    let mut done = done;
    match guards(alts, &mut done)? {
        None => Ok(Focus::Statement {
            task: Task::Select { guards: done },
            rest,
        }),
        Some((at, others)) => {
            let slot = StatementContext::Guard {
                done,
                at,
                rest: others,
            };
            begin(alloc, &at.guard, slot, rest)
        }
    }
}

/// The focus after this slot has got its value.
fn arrive<'a>(
    alloc: Global,
    value: Operand,
    slot: StatementContext<'a>,
    rest: Vec<Segment<'a>>,
) -> Result<Focus<'a>, AllocError>
    ensures { IfOk result (λ n. content n ≡ slotted slot.entry (left rest.entry.items) (operand value)) }
{
    let task = match slot {
        StatementContext::Assign { target } => Task::Assign { target, value },
        StatementContext::Write => Task::Write { value },
        StatementContext::Do => Task::Do { value },
        StatementContext::Destination { method, args } => return into_async(
            alloc,
            value,
            method,
            Vec::new(alloc),
            args,
            rest,
        ),
        StatementContext::Argument {
            to,
            method,
            done,
            rest: args,
        } => {
            let mut done = done;
            done.push(value)?;
            return into_async(alloc, to, method, done, args, rest);
        }
        StatementContext::If { yes, no } => Task::If {
            cond: value,
            yes,
            no,
        },
        StatementContext::Loop { cond, body } => Task::Loop { value, cond, body },
        StatementContext::Guard {
            done,
            at,
            rest: alts,
        } => {
            let mut done = done;
            done.push(Guarded {
                guard: value,
                alt: at,
            })?;
            return into_select(alloc, done, alts, rest);
        }
        StatementContext::Value => return Ok(Focus::Value { value }),
    };
    Ok(Focus::Statement { task, rest })
}

/// The focus after the innermost of these places has got its value.
#[tactic(auto, using(crate::proofs::ContextPlug::nested_more))]
pub fn settle<'a>(
    alloc: Global,
    value: Operand,
    places: Vec<ExpressionContext<'a>>,
    slot: StatementContext<'a>,
    rest: Vec<Segment<'a>>,
) -> Result<Focus<'a>, AllocError>
    ensures { IfOk result (λ n. content n ≡ slotted slot.entry (left rest.entry.items) (nested places.entry.items (operand value))) }
{
    let mut places = places;
    match places.pop() {
        None => arrive(alloc, value, slot, rest),
        Some(place) => {
            let redex = find(alloc, value, place, &mut places)?;
            Ok(Focus::Expression {
                redex,
                places,
                slot,
                rest,
            })
        }
    }
}

/// The focus at the redex of an expression in this slot.
pub fn enter<'a>(
    alloc: Global,
    expr: &'a Expr,
    slot: StatementContext<'a>,
    rest: Vec<Segment<'a>>,
) -> Result<Focus<'a>, AllocError>
    ensures { IfOk result (λ n. content n ≡ slotted slot.entry (left rest.entry.items) (expression_of expr.now)) }
{
    match literal(expr) {
        Some(value) => arrive(alloc, value, slot, rest),
        None => begin(alloc, expr, slot, rest),
    }
}

/// The focus at the redex of a statement.
fn enter_statement<'a>(
    alloc: Global,
    stmt: &'a Stmt,
    rest: Vec<Segment<'a>>,
) -> Result<Focus<'a>, AllocError>
    ensures { IfOk result (λ n. content n ≡ Running (T.Then (statement_of stmt.now) (left rest.entry.items))) }
{
    match stmt {
        Stmt::Assign { target, value } => enter(
            alloc,
            value,
            StatementContext::Assign { target: *target },
            rest,
        ),
        Stmt::Write { value } => enter(alloc, value, StatementContext::Write, rest),
        Stmt::WriteText { text } => Ok(Focus::Statement {
            task: Task::WriteText { text: *text },
            rest,
        }),
        Stmt::Do { value } => enter(alloc, value, StatementContext::Do, rest),
        Stmt::Async { to, method, args } => {
            let slot = StatementContext::Destination {
                method: *method,
                args: args.items(),
            };
            enter(alloc, to, slot, rest)
        }
        Stmt::If { cond, yes, no } => {
            let slot = StatementContext::If {
                yes: yes.items(),
                no: no.items(),
            };
            enter(alloc, cond, slot, rest)
        }
        Stmt::While { cond, body } => {
            let task = Task::While {
                cond,
                body: body.items(),
            };
            Ok(Focus::Statement { task, rest })
        }
        Stmt::Answer { names } => {
            let task = Task::Answer {
                names: names.items(),
            };
            Ok(Focus::Statement { task, rest })
        }
        Stmt::Select { alts } => into_select(alloc, Vec::new(alloc), alts.items(), rest),
    }
}

/// These statements, and then those that follow already.
#[tactic(auto, using(crate::proofs::ContextPlug::left_more, crate::proofs::ContextPlug::nothing_left))]
pub fn before<'a>(
    statements: &'a [Stmt],
    rest: Vec<Segment<'a>>,
) -> Result<Vec<Segment<'a>>, AllocError>
    ensures { IfOk result (λ r. left r.items ≡ append (statements_of statements.now) (left rest.entry.items)) }
{
    if statements.is_empty() {
        return Ok(rest);
    }
    let mut rest = rest;
    rest.push(Segment::Rest(statements))?;
    Ok(rest)
}

/// The focus at the first statement that follows. If none is left, it is at the redex of this value, or `Over` without
/// a value.
#[tactic(auto, using(crate::proofs::ContextPlug::left_more, crate::proofs::ContextPlug::nothing_left))]
pub fn advance<'a>(
    alloc: Global,
    rest: Vec<Segment<'a>>,
    value: Option<&'a Expr>,
) -> Result<Focus<'a>, AllocError>
    ensures { IfOk result (λ n. content n ≡ ahead (expression_seen value.entry) (left rest.entry.items)) }
{
    let mut rest = rest;
    while let Some(segment) = rest.pop() {
        match segment {
            Segment::Again { cond, body } => {
                let task = Task::While { cond, body };
                return Ok(Focus::Statement { task, rest });
            }
            Segment::Rest(statements) => {
                if let Some((first, others)) = statements.split_first() {
                    let rest = before(others, rest)?;
                    return enter_statement(alloc, first, rest);
                }
            }
        }
    }
    match value {
        None => Ok(Focus::Over),
        Some(expr) => enter(alloc, expr, StatementContext::Value, rest),
    }
}
