//! The text of a program's expressions.
ghost use Rattle.std.specs.Prelude.{◌≡◌, ◌++◌, OnOk};
ghost use Rattle.pool_syntax.specs.TreeOf.{expression_of, expressions_of};
ghost use Rattle.term_text.specs.Words.{operator_text, arguments_text, bare_text, called, more_arguments, text_in, word};

use pool_printer::{left_need, level, right_need};
use pool_syntax::Expr;
use record_writer::{push_name, push_value, push_word};
use run_types::{NameId, Names, Op, Value};
use std::alloc::AllocError;

fn operator_text(op: Op) -> &'static [u8]
    ensures { result.now ≡ operator_text op }
{
    match op {
        Op::Add => b"+",
        Op::Sub => b"-",
        Op::Mul => b"*",
        Op::Div => b"/",
        Op::Rem => b"%",
        Op::Neg => b"-",
        Op::Less => b"<",
        Op::LessEq => b"<=",
        Op::More => b">",
        Op::MoreEq => b">=",
        Op::Same => b"==",
        Op::Differs => b"!=",
        Op::And => b"and",
        Op::Or => b"or",
        Op::Not => b"not",
    }
}

/// Appends the sign of an operator.
pub fn push_operator(text: &mut Vec<u8>, op: Op) -> Result<(), AllocError>
    ensures { OnOk result (text.new.items ≡ text.old.items ++ word (operator_text op)) }
{
    push_word(text, operator_text(op))
}

/// Appends an expression in a place that needs a level: in parentheses where its own is lower.
#[cycle(expressions)]
pub fn push_enclosed(
    text: &mut Vec<u8>,
    names: &Names,
    need: u8,
    expr: &Expr,
) -> Result<(), AllocError>
    ensures { OnOk result (text.new.items ≡ text.old.items ++ text_in names.now need (expression_of expr.now)) }
{
    if need <= level(expr) {
        push_expression(text, names, expr)
    } else {
        put!(push_word(text, b"("));
        put!(push_expression(text, names, expr));
        push_word(text, b")")
    }
}

/// Appends an expression without parentheses around it.
#[cycle(expressions)]
pub fn push_expression(text: &mut Vec<u8>, names: &Names, expr: &Expr) -> Result<(), AllocError>
    ensures { OnOk result (text.new.items ≡ text.old.items ++ bare_text names.now (expression_of expr.now)) }
{
    match expr {
        Expr::Int { value, .. } => push_value(text, Value::Int(*value)),
        Expr::Bool { value, .. } => push_value(text, Value::Bool(*value)),
        Expr::Nil { .. } => push_value(text, Value::Nil),
        Expr::Me { .. } => push_word(text, b"self"),
        Expr::Var { name, .. } => push_name(text, names, *name),
        Expr::New { class, .. } => {
            put!(push_word(text, b"new"));
            push_name(text, names, *class)
        }
        Expr::Unary { op, arg, .. } => {
            put!(push_operator(text, *op));
            push_enclosed(text, names, 6, arg)
        }
        Expr::Binary {
            op,
            left,
            right,
            ..
        } => {
            put!(push_enclosed(text, names, left_need(*op), left));
            put!(push_operator(text, *op));
            push_enclosed(text, names, right_need(*op), right)
        }
        Expr::Call { method, args, .. } => push_call(text, names, *method, args.items()),
        Expr::Send {
            to,
            method,
            args,
            ..
        } => {
            put!(push_enclosed(text, names, 7, to));
            put!(push_word(text, b"!"));
            push_call(text, names, *method, args.items())
        }
    }
}

/// Appends a method's name and the arguments.
#[cycle(expressions)]
pub fn push_call(
    text: &mut Vec<u8>,
    names: &Names,
    method: NameId,
    args: &[Expr],
) -> Result<(), AllocError>
    ensures { OnOk result (text.new.items ≡ text.old.items ++ called names.now method.0 (arguments_text names.now (expressions_of args.now))) }
{
    put!(push_name(text, names, method));
    put!(push_word(text, b"("));
    put!(push_arguments(text, names, args));
    push_word(text, b")")
}

/// Appends arguments, a comma between each two.
#[cycle(expressions)]
pub fn push_arguments(text: &mut Vec<u8>, names: &Names, args: &[Expr]) -> Result<(), AllocError>
    ensures { OnOk result (text.new.items ≡ text.old.items ++ arguments_text names.now (expressions_of args.now)) }
{
    if args.is_empty() {
        return Ok(());
    }
    put!(push_expression(text, names, &args[0]));
    for i in 1..args.len() {
        put!(push_word(text, b","));
        put!(push_expression(text, names, &args[i]));
    }
    Ok(())
}

/// Appends arguments, a comma before each.
pub fn push_more_arguments(
    text: &mut Vec<u8>,
    names: &Names,
    args: &[Expr],
) -> Result<(), AllocError>
    ensures { OnOk result (text.new.items ≡ text.old.items ++ more_arguments names.now (expressions_of args.now)) }
{
    for arg in args {
        put!(push_word(text, b","));
        put!(push_expression(text, names, arg));
    }
    Ok(())
}
