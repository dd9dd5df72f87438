//! Equality of statements.
ghost use Rattle.std.specs.Prelude.{◌≡◌, true};
ghost use Rattle.pool_syntax.specs.TreeOf.{alternatives_of, expression_of, statement_of, statements_of};

use crate::expressions::{same_expression, same_expressions};
use crate::names::{same_answer, same_named, same_names};
use pool_syntax::{Alt, Stmt};

/// Whether two statements are the same.
#[cycle(statements)]
fn same_statement(left: &Stmt, right: &Stmt) -> bool
    ensures same { result ≡ true → statement_of left.now ≡ statement_of right.now }
    ensures different { statement_of left.now ≡ statement_of right.now → result ≡ true }
{
    match (left, right) {
        (
            Stmt::Assign { target, value },
            Stmt::Assign {
                target: t,
                value: v,
            },
        ) => { same_named(*target, *t) && same_expression(value, v) }
        (Stmt::Write { value }, Stmt::Write { value: v }) => same_expression(value, v),
        (Stmt::WriteText { text }, Stmt::WriteText { text: t }) => text.0 == t.0,
        (Stmt::Do { value }, Stmt::Do { value: v }) => same_expression(value, v),
        (
            Stmt::Async { to, method, args },
            Stmt::Async {
                to: t,
                method: m,
                args: a,
            },
        ) => {
            same_named(*method, *m)
                && same_expression(to, t)
                && same_expressions(args.items(), a.items())
        }
        (Stmt::Answer { names }, Stmt::Answer { names: n }) => same_names(names.items(), n.items()),
        (
            Stmt::If { cond, yes, no },
            Stmt::If {
                cond: c,
                yes: y,
                no: n,
            },
        ) => {
            same_expression(cond, c)
                && same_statements(yes.items(), y.items())
                && same_statements(no.items(), n.items())
        }
        (Stmt::While { cond, body }, Stmt::While { cond: c, body: b }) => {
            same_expression(cond, c) && same_statements(body.items(), b.items())
        }
        (Stmt::Select { alts }, Stmt::Select { alts: a }) => {
            same_alternatives(alts.items(), a.items())
        }
        _ => false,
    }
}

/// Whether two lists of statements are the same.
#[cycle(statements)]
pub fn same_statements(left: &[Stmt], right: &[Stmt]) -> bool
    ensures same { result ≡ true → statements_of left.now ≡ statements_of right.now }
    ensures different { statements_of left.now ≡ statements_of right.now → result ≡ true }
{
    if left.len() != right.len() {
        return false;
    }
    for (i, stmt) in left.iter().enumerate() {
        if !same_statement(stmt, &right[i]) {
            return false;
        }
    }
    true
}

/// Whether two alternatives are the same.
#[cycle(statements)]
fn same_alternative(left: &Alt, right: &Alt) -> bool
    ensures guard { result ≡ true → expression_of left.now.guard ≡ expression_of right.now.guard }
    ensures answer { result ≡ true → left.now.answer ≡ right.now.answer }
    ensures work { result ≡ true → statements_of left.now.work ≡ statements_of right.now.work }
    ensures different { expression_of left.now.guard ≡ expression_of right.now.guard → left.now.answer ≡ right.now.answer → statements_of left.now.work ≡ statements_of right.now.work → result ≡ true }
{
    same_expression(&left.guard, &right.guard)
        && same_answer(&left.answer, &right.answer)
        && same_statements(left.work.items(), right.work.items())
}

/// Whether two lists of alternatives are the same.
#[cycle(statements)]
pub fn same_alternatives(left: &[Alt], right: &[Alt]) -> bool
    ensures same { result ≡ true → alternatives_of left.now ≡ alternatives_of right.now }
    ensures different { alternatives_of left.now ≡ alternatives_of right.now → result ≡ true }
{
    if left.len() != right.len() {
        return false;
    }
    for (i, alt) in left.iter().enumerate() {
        if !same_alternative(alt, &right[i]) {
            return false;
        }
    }
    true
}
