//! The operators of the language on values, and equality.
ghost use Rattle.std.specs.Prelude.{◌≡◌, IsTrue, IfSome, IfNone};
ghost use Rattle.run_types.specs.Values.{infix_value, prefix_value, is_same, Gives, Fails};
ghost use Rattle.operators.specs.Operated.{is_logical, outcome_of};

use run_types::{Error, Op, Value};

/// The result of an operator: a value, a run-time error, or an operand of the wrong sort.
#[derive(Clone, Copy)]
pub enum Answer {
    Gives(Value),
    Fails(Error),
    WrongSort,
}

fn number(checked: Option<i64>) -> Answer
    ensures some { IfSome checked (λ z. outcome_of result ≡ Gives (Value.Int z)) }
    ensures none { IfNone checked (outcome_of result ≡ Fails Error.Overflow) }
{
    match checked {
        Some(value) => Answer::Gives(Value::Int(value)),
        None => Answer::Fails(Error::Overflow),
    }
}

/// Applies an infix operator to two integers. It is inlined, so that the answer does not pass through memory.
#[inline(always)]
pub fn on_ints(op: Op, x: i64, y: i64) -> Answer
    ensures { outcome_of result ≡ infix_value op (Value.Int x) (Value.Int y) }
{
    match op {
        Op::Add => number(x.checked_add(y)),
        Op::Sub => number(x.checked_sub(y)),
        Op::Mul => number(x.checked_mul(y)),
        Op::Div => {
            if y == 0 {
                Answer::Fails(Error::ZeroDivisor)
            } else {
                number(x.checked_div(y))
            }
        }
        Op::Rem => {
            if y == 0 {
                Answer::Fails(Error::ZeroDivisor)
            } else if y == -1 {
                Answer::Gives(Value::Int(0))
            } else {
                Answer::Gives(Value::Int(x % y))
            }
        }
        Op::Less => Answer::Gives(Value::Bool(x < y)),
        Op::LessEq => Answer::Gives(Value::Bool(x <= y)),
        Op::More => Answer::Gives(Value::Bool(x > y)),
        Op::MoreEq => Answer::Gives(Value::Bool(x >= y)),
        Op::Same => Answer::Gives(Value::Bool(x == y)),
        Op::Differs => Answer::Gives(Value::Bool(x != y)),
        Op::Neg | Op::And | Op::Or | Op::Not => Answer::WrongSort,
    }
}

/// Reports whether two values are equal. Values of two sorts are not equal.
pub fn same(left: Value, right: Value) -> bool
    ensures { result ≡ is_same left right }
{
    match (left, right) {
        (Value::Int(x), Value::Int(y)) => x == y,
        (Value::Bool(a), Value::Bool(b)) => a == b,
        (Value::Ref(m), Value::Ref(n)) => m == n,
        (Value::Nil, Value::Nil) => true,
        _ => false,
    }
}

fn on_bools(op: Op, a: bool, b: bool) -> Answer
    requires { IsTrue (is_logical op) }
    ensures { outcome_of result ≡ infix_value op (Value.Bool a) (Value.Bool b) }
{
    match op {
        Op::And => Answer::Gives(Value::Bool(a && b)),
        Op::Or => Answer::Gives(Value::Bool(a || b)),
        _ => unreachable!(),
    }
}

/// Applies an infix operator to two values. A prefix operator is answered with `WrongSort`.
pub fn operate(op: Op, left: Value, right: Value) -> Answer
    ensures { outcome_of result ≡ infix_value op left right }
{
    match op {
        Op::Same => Answer::Gives(Value::Bool(same(left, right))),
        Op::Differs => Answer::Gives(Value::Bool(!same(left, right))),
        Op::Neg | Op::Not => Answer::WrongSort,
        Op::And | Op::Or => match (left, right) {
            (Value::Nil, _) | (_, Value::Nil) => Answer::Fails(Error::NilOperand),
            (Value::Bool(a), Value::Bool(b)) => on_bools(op, a, b),
            _ => Answer::WrongSort,
        },
        _ => match (left, right) {
            (_, Value::Nil) | (Value::Nil, _) => Answer::Fails(Error::NilOperand),
            (Value::Int(x), Value::Int(y)) => on_ints(op, x, y),
            _ => Answer::WrongSort,
        },
    }
}

/// Applies a prefix operator to a value. An infix operator is answered with `WrongSort`.
pub fn operate_one(op: Op, arg: Value) -> Answer
    ensures { outcome_of result ≡ prefix_value op arg }
{
    match (op, arg) {
        (Op::Neg | Op::Not, Value::Nil) => Answer::Fails(Error::NilOperand),
        (Op::Neg, Value::Int(x)) => number(x.checked_neg()),
        (Op::Not, Value::Bool(b)) => Answer::Gives(Value::Bool(!b)),
        _ => Answer::WrongSort,
    }
}
