//! The redex: an expression or a statement.
ghost use Rattle.std.specs.Prelude.{◌≡◌, ◌++◌, OnOk};
ghost use Rattle.pool_syntax.specs.TreeOf.{expression_of, statements_of};
ghost use Rattle.stepper_text.specs.Contents.{again, guards_text, more_operands, operands_text, ready_text, task_text};
ghost use Rattle.pool_syntax.specs.Terms.{While};
ghost use Rattle.term_text.specs.Words.{called, statement_text};

use crate::places::push_operand;
use pool_syntax::{Expr, Stmt};
use record_writer::{push_item, push_name, push_object, push_word};
use run_types::{Item, NameId, Names};
use std::alloc::AllocError;
use stepper_terms::contexts::{Guarded, Operand, Ready, Task};
use term_text::{
    push_answer, push_else, push_expression, push_names, push_operator, push_statements,
};

/// Appends evaluated arguments, a comma between each two.
fn push_operands(text: &mut Vec<u8>, operands: &[Operand]) -> Result<(), AllocError>
    ensures { OnOk result (text.new.items ≡ text.old.items ++ operands_text operands.now) }
{
    match operands.split_first() {
        None => Ok(()),
        Some((first, rest)) => {
            put!(push_operand(text, first));
            push_more_operands(text, rest)
        }
    }
}

/// Appends evaluated arguments, a comma before each.
fn push_more_operands(text: &mut Vec<u8>, operands: &[Operand]) -> Result<(), AllocError>
    ensures { OnOk result (text.new.items ≡ text.old.items ++ more_operands operands.now) }
{
    for operand in operands {
        put!(push_word(text, b","));
        put!(push_operand(text, operand));
    }
    Ok(())
}

/// Appends a method's name and evaluated arguments.
fn push_called(
    text: &mut Vec<u8>,
    names: &Names,
    method: NameId,
    operands: &[Operand],
) -> Result<(), AllocError>
    ensures { OnOk result (text.new.items ≡ text.old.items ++ called names.now method.0 (operands_text operands.now)) }
{
    put!(push_name(text, names, method));
    put!(push_word(text, b"("));
    put!(push_operands(text, operands));
    push_word(text, b")")
}

/// Appends the expression that is the redex.
pub fn push_ready(text: &mut Vec<u8>, names: &Names, redex: &Ready) -> Result<(), AllocError>
    ensures { OnOk result (text.new.items ≡ text.old.items ++ ready_text names.now redex.now) }
{
    match redex {
        Ready::Me { .. } => push_word(text, b"self"),
        Ready::Variable { name, .. } => push_name(text, names, *name),
        Ready::Create { class, .. } => {
            put!(push_word(text, b"new"));
            push_name(text, names, *class)
        }
        Ready::Prefix { op, arg, .. } => {
            put!(push_operator(text, *op));
            push_operand(text, arg)
        }
        Ready::Infix {
            op,
            left,
            right,
            ..
        } => {
            put!(push_operand(text, left));
            put!(push_operator(text, *op));
            push_operand(text, right)
        }
        Ready::Call { method, args, .. } => push_called(text, names, *method, args.as_slice()),
        Ready::Send {
            to,
            method,
            args,
            ..
        } => {
            put!(push_operand(text, to));
            put!(push_word(text, b"!"));
            push_called(text, names, *method, args.as_slice())
        }
        Ready::Wait { receiver, method } => {
            put!(push_word(text, b"waits"));
            put!(push_object(text, *receiver));
            push_name(text, names, *method)
        }
    }
}

/// Appends alternatives whose guards are evaluated.
pub fn push_guards(
    text: &mut Vec<u8>,
    names: &Names,
    guards: &[Guarded<'_>],
) -> Result<(), AllocError>
    ensures { OnOk result (text.new.items ≡ text.old.items ++ guards_text names.now guards.now) }
{
    for guarded in guards {
        put!(push_word(text, b"when"));
        put!(push_operand(text, &guarded.guard));
        put!(push_answer(text, names, &guarded.alt.answer));
        put!(push_word(text, b"then"));
        put!(push_statements(text, names, guarded.alt.work.items()));
    }
    Ok(())
}

/// Appends a loop.
pub fn push_loop(
    text: &mut Vec<u8>,
    names: &Names,
    cond: &Expr,
    body: &[Stmt],
) -> Result<(), AllocError>
    ensures { OnOk result (text.new.items ≡ text.old.items ++ statement_text names.now (While (expression_of cond.now) (statements_of body.now))) }
{
    put!(push_word(text, b"while"));
    put!(push_expression(text, names, cond));
    put!(push_word(text, b"do"));
    put!(push_statements(text, names, body));
    push_word(text, b"od")
}

/// Appends the body of an unfolded loop, and the loop again.
#[tactic(auto, using(crate::proofs::Again::nothing_before, crate::proofs::Again::body_before))]
pub fn push_again(
    text: &mut Vec<u8>,
    names: &Names,
    cond: &Expr,
    body: &[Stmt],
) -> Result<(), AllocError>
    ensures { OnOk result (text.new.items ≡ text.old.items ++ again names.now (expression_of cond.now) (statements_of body.now)) }
{
    match body.split_first() {
        None => push_loop(text, names, cond, body),
        Some(_) => {
            put!(push_statements(text, names, body));
            put!(push_word(text, b";"));
            push_loop(text, names, cond, body)
        }
    }
}

/// Appends the statement that is the redex.
pub fn push_task(text: &mut Vec<u8>, names: &Names, task: &Task<'_>) -> Result<(), AllocError>
    ensures { OnOk result (text.new.items ≡ text.old.items ++ task_text names.now task.now) }
{
    match task {
        Task::Assign { target, value } => {
            put!(push_name(text, names, target.name));
            put!(push_word(text, b":="));
            push_operand(text, value)
        }
        Task::Write { value } => {
            put!(push_word(text, b"write"));
            push_operand(text, value)
        }
        Task::WriteText { text: string } => {
            put!(push_word(text, b"write"));
            push_item(text, names, Item::Text(*string))
        }
        Task::Do { value } => push_operand(text, value),
        Task::Async { to, method, args } => {
            put!(push_operand(text, to));
            put!(push_word(text, b"!!"));
            push_called(text, names, method.name, args.as_slice())
        }
        Task::If { cond, yes, no } => {
            put!(push_word(text, b"if"));
            put!(push_operand(text, cond));
            put!(push_word(text, b"then"));
            put!(push_statements(text, names, yes));
            put!(push_else(text, names, no));
            push_word(text, b"fi")
        }
        Task::Loop { value, cond, body } => {
            put!(push_word(text, b"if"));
            put!(push_operand(text, value));
            put!(push_word(text, b"then"));
            put!(push_again(text, names, cond, body));
            push_word(text, b"fi")
        }
        Task::While { cond, body } => push_loop(text, names, cond, body),
        Task::Answer { names: listed } => {
            put!(push_word(text, b"answer"));
            push_names(text, names, listed)
        }
        Task::Select { guards } => {
            put!(push_word(text, b"select"));
            put!(push_guards(text, names, guards.as_slice()));
            push_word(text, b"end")
        }
    }
}
