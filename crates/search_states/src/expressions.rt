//! Equality of expressions.
ghost use Rattle.std.specs.Prelude.{◌≡◌, true};
ghost use Rattle.pool_syntax.specs.TreeOf.{expression_of, expressions_of};

use pool_syntax::Expr;
use run_types::Op;

/// Whether two operators are the same.
pub fn same_operator(left: Op, right: Op) -> bool
    ensures same { result ≡ true → left ≡ right }
    ensures different { left ≡ right → result ≡ true }
{
    left as u8 == right as u8
}

/// Whether two expressions are the same.
#[cycle(expressions)]
pub fn same_expression(left: &Expr, right: &Expr) -> bool
    ensures same { result ≡ true → expression_of left.now ≡ expression_of right.now }
    ensures different { expression_of left.now ≡ expression_of right.now → result ≡ true }
{
    match (left, right) {
        (&Expr::Int { value, pos }, &Expr::Int { value: v, pos: p }) => value == v && pos == p,
        (&Expr::Bool { value, pos }, &Expr::Bool { value: v, pos: p }) => value == v && pos == p,
        (&Expr::Nil { pos }, &Expr::Nil { pos: p }) => pos == p,
        (&Expr::Me { pos }, &Expr::Me { pos: p }) => pos == p,
        (&Expr::Var { name, pos }, &Expr::Var { name: n, pos: p }) => name.0 == n.0 && pos == p,
        (&Expr::New { class, pos }, &Expr::New { class: c, pos: p }) => class.0 == c.0 && pos == p,
        (
            &Expr::Unary { op, ref arg, pos },
            &Expr::Unary {
                op: o,
                arg: ref a,
                pos: p,
            },
        ) => { same_operator(op, o) && pos == p && same_expression(arg, a) }
        (
            &Expr::Binary {
                op,
                ref left,
                ref right,
                pos,
            },
            &Expr::Binary {
                op: o,
                left: ref l,
                right: ref r,
                pos: p,
            },
        ) => {
            same_operator(op, o)
                && pos == p
                && same_expression(left, l)
                && same_expression(right, r)
        }
        (
            &Expr::Call {
                method,
                ref args,
                pos,
            },
            &Expr::Call {
                method: m,
                args: ref a,
                pos: p,
            },
        ) => { method.0 == m.0 && pos == p && same_expressions(args.items(), a.items()) }
        (
            &Expr::Send {
                ref to,
                method,
                ref args,
                pos,
            },
            &Expr::Send {
                to: ref t,
                method: m,
                args: ref a,
                pos: p,
            },
        ) => {
            method.0 == m.0
                && pos == p
                && same_expression(to, t)
                && same_expressions(args.items(), a.items())
        }
        _ => false,
    }
}

/// Whether two lists of expressions are the same.
#[cycle(expressions)]
pub fn same_expressions(left: &[Expr], right: &[Expr]) -> bool
    ensures same { result ≡ true → expressions_of left.now ≡ expressions_of right.now }
    ensures different { expressions_of left.now ≡ expressions_of right.now → result ≡ true }
{
    if left.len() != right.len() {
        return false;
    }
    for (i, expr) in left.iter().enumerate() {
        if !same_expression(expr, &right[i]) {
            return false;
        }
    }
    true
}
