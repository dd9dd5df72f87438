//! The text of a program's statements.
ghost use Rattle.std.specs.Prelude.{◌≡◌, ◌++◌, OnOk};
ghost use Rattle.pool_syntax.specs.Terms.{Select};
ghost use Rattle.pool_syntax.specs.TreeOf.{alternatives_of, statement_of, statements_of};
ghost use Rattle.term_text.specs.Words.{alternatives_text, answer_text, else_text, more_statements, statement_text, statements_text};

use crate::expressions::{push_call, push_enclosed, push_expression};
use crate::parts::push_names;
use pool_syntax::{Alt, Named, Stmt};
use record_writer::{push_item, push_name, push_word};
use run_types::{Item, List, Names};
use std::alloc::AllocError;

/// Appends the answer list of an alternative, if it has one.
pub fn push_answer(
    text: &mut Vec<u8>,
    names: &Names,
    answer: &Option<List<Named>>,
) -> Result<(), AllocError>
    ensures { OnOk result (text.new.items ≡ text.old.items ++ answer_text names.now answer.now) }
{
    match answer {
        None => Ok(()),
        Some(list) => {
            put!(push_word(text, b"answer"));
            push_names(text, names, list.items())
        }
    }
}

/// Appends a statement.
#[cycle(statements)]
pub fn push_statement(text: &mut Vec<u8>, names: &Names, stmt: &Stmt) -> Result<(), AllocError>
    ensures { OnOk result (text.new.items ≡ text.old.items ++ statement_text names.now (statement_of stmt.now)) }
{
    match stmt {
        Stmt::Assign { target, value } => {
            put!(push_name(text, names, target.name));
            put!(push_word(text, b":="));
            push_expression(text, names, value)
        }
        Stmt::Write { value } => {
            put!(push_word(text, b"write"));
            push_expression(text, names, value)
        }
        Stmt::WriteText { text: string } => {
            put!(push_word(text, b"write"));
            push_item(text, names, Item::Text(*string))
        }
        Stmt::Do { value } => push_expression(text, names, value),
        Stmt::Async { to, method, args } => {
            put!(push_enclosed(text, names, 7, to));
            put!(push_word(text, b"!!"));
            push_call(text, names, method.name, args.items())
        }
        Stmt::If { cond, yes, no } => {
            put!(push_word(text, b"if"));
            put!(push_expression(text, names, cond));
            put!(push_word(text, b"then"));
            put!(push_statements(text, names, yes.items()));
            put!(push_else(text, names, no.items()));
            push_word(text, b"fi")
        }
        Stmt::While { cond, body } => {
            put!(push_word(text, b"while"));
            put!(push_expression(text, names, cond));
            put!(push_word(text, b"do"));
            put!(push_statements(text, names, body.items()));
            push_word(text, b"od")
        }
        Stmt::Answer { names: listed } => {
            put!(push_word(text, b"answer"));
            push_names(text, names, listed.items())
        }
        Stmt::Select { alts } => push_select(text, names, alts.items()),
    }
}

/// Appends a select.
#[cycle(statements)]
pub fn push_select(text: &mut Vec<u8>, names: &Names, alts: &[Alt]) -> Result<(), AllocError>
    ensures { OnOk result (text.new.items ≡ text.old.items ++ statement_text names.now (Select (alternatives_of alts.now))) }
{
    put!(push_word(text, b"select"));
    put!(push_alternatives(text, names, alts));
    push_word(text, b"end")
}

/// Appends `else` and its statements, where there are any.
#[cycle(statements)]
pub fn push_else(text: &mut Vec<u8>, names: &Names, stmts: &[Stmt]) -> Result<(), AllocError>
    ensures { OnOk result (text.new.items ≡ text.old.items ++ else_text (statements_of stmts.now) (statements_text names.now (statements_of stmts.now))) }
{
    match stmts.split_first() {
        None => Ok(()),
        Some(_) => {
            put!(push_word(text, b"else"));
            push_statements(text, names, stmts)
        }
    }
}

/// Appends statements, a semicolon between each two.
#[cycle(statements)]
pub fn push_statements(text: &mut Vec<u8>, names: &Names, stmts: &[Stmt]) -> Result<(), AllocError>
    ensures { OnOk result (text.new.items ≡ text.old.items ++ statements_text names.now (statements_of stmts.now)) }
{
    if stmts.is_empty() {
        return Ok(());
    }
    put!(push_statement(text, names, &stmts[0]));
    for i in 1..stmts.len() {
        put!(push_word(text, b";"));
        put!(push_statement(text, names, &stmts[i]));
    }
    Ok(())
}

/// Appends statements, a semicolon before each.
pub fn push_more_statements(
    text: &mut Vec<u8>,
    names: &Names,
    stmts: &[Stmt],
) -> Result<(), AllocError>
    ensures { OnOk result (text.new.items ≡ text.old.items ++ more_statements names.now (statements_of stmts.now)) }
{
    for stmt in stmts {
        put!(push_word(text, b";"));
        put!(push_statement(text, names, stmt));
    }
    Ok(())
}

/// Appends the alternatives of a select.
#[cycle(statements)]
pub fn push_alternatives(text: &mut Vec<u8>, names: &Names, alts: &[Alt]) -> Result<(), AllocError>
    ensures { OnOk result (text.new.items ≡ text.old.items ++ alternatives_text names.now (alternatives_of alts.now)) }
{
    for alt in alts {
        put!(push_word(text, b"when"));
        put!(push_expression(text, names, &alt.guard));
        put!(push_answer(text, names, &alt.answer));
        put!(push_word(text, b"then"));
        put!(push_statements(text, names, alt.work.items()));
    }
    Ok(())
}
