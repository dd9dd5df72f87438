//! The operand depth of expressions and statements: the greatest depth of the operand stack while they run.
//! A result is exact if the depth is at most 64.
ghost use Rattle.std.specs.Prelude.{◌≡◌, ◌≤◌};
ghost use Rattle.pool_syntax.specs.TreeOf.{expression_of, expressions_of, statement_of, statements_of, alternatives_of};
ghost use Rattle.pool_compile.specs.Code.{expression_words, expressions_words, guards_words, more, statement_words, statements_words, works_words};

use pool_syntax::{Alt, Expr, Stmt};

/// The greater of two numbers.
pub fn more(first: u32, second: u32) -> u32
    ensures { result ≡ more first second }
{
    if first <= second { second } else { first }
}

/// The operand depth of an expression, if it is at most 64.
#[cycle(words)]
pub fn expression_words(expr: &Expr) -> u32
    ensures { expression_words (expression_of expr.now) ≤ 64 → result ≡ expression_words (expression_of expr.now) }
{
    match expr {
        Expr::Unary { arg, .. } => expression_words(arg),
        Expr::Binary { left, right, .. } => {
            let first = expression_words(left);
            let second = expression_words(right);
            more(first, second.saturating_add(1))
        }
        Expr::Call { args, .. } => more(1, expressions_words(args.items())),
        Expr::Send { to, args, .. } => {
            let first = expression_words(to);
            let second = expressions_words(args.items());
            more(first, second.saturating_add(1))
        }
        _ => 1,
    }
}

/// The operand depth of expressions, if it is at most 64. Each is evaluated on top of the values of those before it.
#[cycle(words)]
fn expressions_words(exprs: &[Expr]) -> u32
    ensures { expressions_words (expressions_of exprs.now) ≤ 64 → result ≡ expressions_words (expressions_of exprs.now) }
{
    let mut most = 0u32;
    for left in (0..exprs.len()).rev() {
        most = more(expression_words(&exprs[left]), most.saturating_add(1));
    }
    most
}

/// The operand depth of the guards of a select, if it is at most 64.
/// Each is evaluated on top of the values of those before it.
fn guards_words(alts: &[Alt]) -> u32
    ensures { guards_words (alternatives_of alts.now) ≤ 64 → result ≡ guards_words (alternatives_of alts.now) }
{
    let mut most = 0u32;
    for left in (0..alts.len()).rev() {
        most = more(expression_words(&alts[left].guard), most.saturating_add(1));
    }
    most
}

/// The operand depth of a statement, if it is at most 64.
#[cycle(statements)]
fn statement_words(stmt: &Stmt) -> u32
    ensures { statement_words (statement_of stmt.now) ≤ 64 → result ≡ statement_words (statement_of stmt.now) }
{
    match stmt {
        Stmt::Assign { value, .. } => expression_words(value),
        Stmt::Write { value } => expression_words(value),
        Stmt::WriteText { .. } => 0,
        Stmt::Do { value } => expression_words(value),
        Stmt::Async { to, args, .. } => {
            let first = expression_words(to);
            let second = expressions_words(args.items());
            more(first, second.saturating_add(1))
        }
        Stmt::If { cond, yes, no } => {
            let lists = more(statements_words(yes.items()), statements_words(no.items()));
            more(expression_words(cond), lists)
        }
        Stmt::While { cond, body } => {
            more(expression_words(cond), statements_words(body.items()))
        }
        Stmt::Answer { .. } => 0,
        Stmt::Select { alts } => more(guards_words(alts.items()), works_words(alts.items())),
    }
}

/// The operand depth of statements, if it is at most 64.
#[cycle(statements)]
pub fn statements_words(stmts: &[Stmt]) -> u32
    ensures { statements_words (statements_of stmts.now) ≤ 64 → result ≡ statements_words (statements_of stmts.now) }
{
    let mut most = 0;
    for stmt in stmts {
        most = more(most, statement_words(stmt));
    }
    most
}

/// The operand depth of the lists of a select, if it is at most 64.
#[cycle(statements)]
fn works_words(alts: &[Alt]) -> u32
    ensures { works_words (alternatives_of alts.now) ≤ 64 → result ≡ works_words (alternatives_of alts.now) }
{
    let mut most = 0;
    for alt in alts {
        most = more(most, statements_words(alt.work.items()));
    }
    most
}
