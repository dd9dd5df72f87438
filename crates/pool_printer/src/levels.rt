//! Levels of expressions: the higher the level, the closer its operator binds. An expression stands without parentheses
//! in a place that requires its level or a lower one.
ghost use Rattle.std.specs.Prelude.{◌≡◌};
ghost use Rattle.pool_syntax.specs.TreeOf.{expression_of};
ghost use Rattle.pool_printer.specs.Canonical.{left_need, level, operator_level, right_need};

use pool_syntax::Expr;
use run_types::Op;

/// The level that a place requires if every expression may be there without parentheses.
pub const ANY: u8 = 1;

/// The level of an expression with a prefix operator, and the level that its operand requires.
pub const PREFIX: u8 = 6;

/// The level of a send, and the level that its destination requires.
pub const SEND: u8 = 7;

/// The level of an expression with this operator, 1 to 6.
pub fn operator_level(op: Op) -> u8
    ensures { result ≡ operator_level op }
{
    match op {
        Op::Or => 1,
        Op::And => 2,
        Op::Same | Op::Differs | Op::Less | Op::LessEq | Op::More | Op::MoreEq => 3,
        Op::Add | Op::Sub => 4,
        Op::Mul | Op::Div | Op::Rem => 5,
        Op::Neg | Op::Not => PREFIX,
    }
}

/// The level that a left operand requires, 1 to 6. Repeated operators group to the left, but comparisons do not.
pub fn left_need(op: Op) -> u8
    ensures { result ≡ left_need op }
{
    match operator_level(op) {
        3 => 4,
        level => level,
    }
}

/// The level that a right operand requires, 2 to 7.
pub fn right_need(op: Op) -> u8
    ensures { result ≡ right_need op }
{
    match operator_level(op) {
        level if level < u8::MAX => level + 1,
        _ => u8::MAX,
    }
}

/// The level of an expression, 1 to 8. Names, literals, `new` and calls have level 8.
pub fn level(expr: &Expr) -> u8
    ensures { result ≡ level (expression_of expr.now) }
{
    match expr {
        Expr::Binary { op, .. } => operator_level(*op),
        Expr::Unary { .. } => PREFIX,
        Expr::Send { .. } => SEND,
        _ => 8,
    }
}
