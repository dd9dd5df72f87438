//! The lines of a body and of the methods under way in it.
ghost use Rattle.std.specs.Prelude.{◌≡◌, ◌++◌, ◌∷◌, [], OnOk};
ghost use Rattle.pool_syntax.specs.TreeOf.{expression_of, statements_of};
ghost use Rattle.stepper_terms.specs.Parts.{behind, caller_at};
ghost use Rattle.term_text.specs.Words.{bare_text};
ghost use Rattle.stepper_text.specs.Inners.{body_text, done_text, head_text, inner_text, is_in_value, is_value_slot, later_text, level_line, level_lines, at_first, post_stage_text, seen, stage_text, work_lines};

use crate::inner::Inner;
use crate::running::{push_braced, push_next, push_running, push_segments, push_within};
use pool_syntax::{Expr, Stmt};
use record_writer::{push_name, push_object, push_value, push_word};
use run_types::{NameId, Names, Value};
use std::alloc::AllocError;
use stepper_terms::contexts::{
    Activation, Continuation, Focus, Stage, StatementContext, SuspendedCall,
};
use term_text::{push_bindings, push_expression, push_mark, push_statements, push_unmark};

/// Appends the text of a body, or of post statements.
pub fn push_inner(
    text: &mut Vec<u8>,
    names: &Names,
    inner: &Inner<'_, '_>,
) -> Result<(), AllocError>
    ensures { OnOk result (text.new.items ≡ text.old.items ++ inner_text names.now inner.now) }
{
    match *inner {
        Inner::Running {
            slot,
            places,
            redex,
            rest,
        } => push_running(text, names, slot, places, redex, rest),
        Inner::Within {
            slot,
            places,
            method,
            rest,
        } => push_within(text, names, slot, places, method, rest),
        Inner::Next { task, rest } => push_next(text, names, task, rest),
        Inner::Serving { method, rest } => {
            put!(push_braced(text, names, method));
            push_segments(text, names, rest)
        }
        Inner::Value(_) => Ok(()),
        Inner::Over => Ok(()),
    }
}

/// Appends the post statements that have not begun.
fn push_later(text: &mut Vec<u8>, names: &Names, post: &[Stmt]) -> Result<(), AllocError>
    ensures { OnOk result (text.new.items ≡ text.old.items ++ later_text names.now (statements_of post.now)) }
{
    match post.split_first() {
        None => Ok(()),
        Some(_) => {
            put!(push_word(text, b"post"));
            push_statements(text, names, post)
        }
    }
}

/// Appends the value of a method that is done.
fn push_done_value(text: &mut Vec<u8>, value: Value) -> Result<(), AllocError>
    ensures { OnOk result (text.new.items ≡ text.old.items ++ done_text value) }
{
    put!(push_mark(text));
    put!(push_word(text, b"result"));
    put!(push_value(text, value));
    push_unmark(text)
}

/// Reports whether it is the value of a method.
fn is_value_slot(slot: &StatementContext<'_>) -> bool
    ensures { result ≡ is_value_slot slot.now }
{
    match slot {
        StatementContext::Value => true,
        _ => false,
    }
}

/// Reports whether the value of the method is under evaluation.
fn is_in_value(inner: &Inner<'_, '_>) -> bool
    ensures { result ≡ is_in_value inner.now }
{
    match *inner {
        Inner::Running { slot, .. } => is_value_slot(slot),
        Inner::Within { slot, .. } => is_value_slot(slot),
        _ => false,
    }
}

/// Appends the text of a method that is at its statements or at its value.
fn push_body(
    text: &mut Vec<u8>,
    names: &Names,
    value: &Expr,
    post: &[Stmt],
    last: &[Stmt],
    inner: &Inner<'_, '_>,
) -> Result<(), AllocError>
    ensures { OnOk result (text.new.items ≡ text.old.items
        ++ body_text names.now (bare_text names.now (expression_of value.now)) (later_text names.now (statements_of post.now)) (later_text names.now (statements_of last.now)) inner.now) }
{
    match *inner {
        Inner::Value(operand) => {
            put!(push_done_value(text, operand.value));
            push_later(text, names, last)
        }
        Inner::Over => {
            put!(push_done_value(text, Value::Nil));
            push_later(text, names, last)
        }
        _ => {
            if is_in_value(inner) {
                put!(push_word(text, b"result"));
                put!(push_inner(text, names, inner));
                push_later(text, names, post)
            } else {
                put!(push_inner(text, names, inner));
                put!(push_word(text, b"result"));
                put!(push_expression(text, names, value));
                push_later(text, names, post)
            }
        }
    }
}

/// Appends the text of a method that is at its post statements.
fn push_post_stage(
    text: &mut Vec<u8>,
    names: &Names,
    value: Value,
    inner: &Inner<'_, '_>,
) -> Result<(), AllocError>
    ensures { OnOk result (text.new.items ≡ text.old.items ++ post_stage_text names.now value inner.now) }
{
    match *inner {
        Inner::Value(_) => push_done_value(text, value),
        Inner::Over => push_done_value(text, value),
        _ => {
            put!(push_word(text, b"result"));
            put!(push_value(text, value));
            put!(push_word(text, b"post"));
            push_inner(text, names, inner)
        }
    }
}

/// The post statements that are left of a method that is done: those of a method that serves a caller.
fn last_post<'a>(outer: &SuspendedCall<'_>, post: &'a [Stmt]) -> &'a [Stmt]
    ensures { statements_of result.now ≡ behind (caller_at outer.now) (statements_of post.entry.now) }
{
    match outer {
        SuspendedCall::Statement {
            caller: Some(_),
            ..
        } => post,
        _ => &[],
    }
}

/// Appends the text of a method under way.
fn push_stage(
    text: &mut Vec<u8>,
    names: &Names,
    outer: &SuspendedCall<'_>,
    stage: &Stage<'_>,
    inner: &Inner<'_, '_>,
) -> Result<(), AllocError>
    ensures { OnOk result (text.new.items ≡ text.old.items ++ stage_text names.now outer.now stage.now inner.now) }
{
    match stage {
        Stage::Body { value, post } => {
            push_body(text, names, value, post, last_post(outer, post), inner)
        }
        Stage::Post { value } => push_post_stage(text, names, value.value, inner),
    }
}

/// Appends the first words of a method's line.
fn push_head(
    text: &mut Vec<u8>,
    names: &Names,
    object: u32,
    method: NameId,
    stage: &Stage<'_>,
    outer: &SuspendedCall<'_>,
) -> Result<(), AllocError>
    ensures { OnOk result (text.new.items ≡ text.old.items ++ head_text names.now object method.0 stage.now outer.now) }
{
    match outer {
        SuspendedCall::Expression { .. } => {
            put!(text.extend_from_slice(b"own"));
            put!(push_object(text, object));
            push_name(text, names, method)
        }
        SuspendedCall::Statement { caller, .. } => match (stage, caller) {
            (Stage::Body { .. }, Some(caller)) => {
                put!(text.extend_from_slice(b"serve"));
                put!(push_object(text, object));
                put!(push_name(text, names, method));
                push_object(text, *caller)
            }
            _ => {
                put!(text.extend_from_slice(b"take"));
                put!(push_object(text, object));
                push_name(text, names, method)
            }
        },
    }
}

/// Appends the line of a method under way.
pub fn push_level(
    text: &mut Vec<u8>,
    names: &Names,
    object: u32,
    call: &Activation<'_>,
    inner: &Inner<'_, '_>,
) -> Result<(), AllocError>
    ensures { OnOk result (text.new.items ≡ text.old.items ++ level_line names.now object call.now (seen inner.now)) }
{
    put!(push_head(text, names, object, call.method, &call.stage, &call.outer));
    put!(push_bindings(text, names, call.temps.as_slice()));
    put!(push_word(text, b":"));
    put!(push_stage(text, names, &call.outer, &call.stage, inner));
    text.extend_from_slice(b"\n")
}

/// The content of a body or of a method, from the methods under way in it and the redex.
fn inner_of<'b, 'a>(calls: &'b [Activation<'a>], next: &'b Focus<'a>) -> Inner<'b, 'a>
    ensures { seen result ≡ at_first calls.entry.now next.entry.now }
{
    match calls.first() {
        Some(call) => match &call.outer {
            SuspendedCall::Expression { places, slot, rest } => Inner::Within {
                slot,
                places: places.as_slice(),
                method: call.method,
                rest: rest.as_slice(),
            },
            SuspendedCall::Statement { rest, .. } => Inner::Serving {
                method: call.method,
                rest: rest.as_slice(),
            },
        },
        None => match next {
            Focus::Expression {
                redex,
                places,
                slot,
                rest,
            } => Inner::Running {
                slot,
                places: places.as_slice(),
                redex,
                rest: rest.as_slice(),
            },
            Focus::Statement { task, rest } => Inner::Next {
                task,
                rest: rest.as_slice(),
            },
            Focus::Value { value } => Inner::Value(*value),
            Focus::Over => Inner::Over,
        },
    }
}

/// Appends the lines of all methods under way, the outermost first.
fn push_levels<'b, 'a>(
    text: &mut Vec<u8>,
    names: &Names,
    object: u32,
    calls: &'b [Activation<'a>],
    next: &'b Focus<'a>,
) -> Result<(), AllocError>
    ensures { OnOk result (text.new.items ≡ text.old.items ++ level_lines names.now object calls.entry.now next.entry.now) }
{
    for i in 0..calls.len() {
        let inner = inner_of(&calls[i + 1..], next);
        put!(push_level(text, names, object, &calls[i], &inner));
    }
    Ok(())
}

/// Appends the lines of the body and of all methods under way. An error means out of memory.
pub fn push_work(
    text: &mut Vec<u8>,
    names: &Names,
    object: u32,
    work: &Continuation<'_>,
) -> Result<(), AllocError>
    ensures { OnOk result (text.new.items ≡ text.old.items ++ work_lines names.now object work.now) }
{
    put!(text.extend_from_slice(b"body"));
    put!(push_object(text, object));
    put!(push_word(text, b":"));
    let inner = inner_of(work.calls.as_slice(), &work.next);
    put!(push_inner(text, names, &inner));
    put!(text.extend_from_slice(b"\n"));
    push_levels(text, names, object, work.calls.as_slice(), &work.next)
}
