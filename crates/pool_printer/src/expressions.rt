//! Output of expressions.
ghost use Rattle.std.specs.Prelude.{◌≡◌, true};
ghost use Rattle.pool_syntax.specs.TreeOf.{expression_of, expressions_of};
ghost use Rattle.pool_printer.specs.Canonical.{argument_tokens, bare_tokens, call_tokens, expression_tokens, operator_token, separated_by, truth_token};
ghost use Rattle.pool_printer.specs.Known.{are_known};
ghost use Rattle.pool_printer.specs.SinkState.{Prints, state};
ghost use Rattle.pool_syntax.specs.declared.token.Tok.TheVariants.{Sign as SignToken};

use crate::levels::{ANY, PREFIX, SEND, left_need, level, right_need};
use crate::token_writer::{Progress, say, say_all, separate};
use pool_outside::Sink;
use pool_syntax::{Expr, Sign, Tok};
use run_types::{NameId, Names, Op};
use text_scan::Keyword;

fn truth_token(value: bool) -> Tok
    ensures { result ≡ truth_token value }
{
    if value {
        Tok::Word(Keyword::True)
    } else {
        Tok::Word(Keyword::False)
    }
}

fn operator_token(op: Op) -> Tok
    ensures { result ≡ operator_token op }
{
    match op {
        Op::Add => Tok::Sign(Sign::Plus),
        Op::Sub => Tok::Sign(Sign::Minus),
        Op::Mul => Tok::Sign(Sign::Star),
        Op::Div => Tok::Sign(Sign::Slash),
        Op::Rem => Tok::Sign(Sign::Percent),
        Op::Neg => Tok::Sign(Sign::Minus),
        Op::Less => Tok::Sign(Sign::Less),
        Op::LessEq => Tok::Sign(Sign::LessEq),
        Op::More => Tok::Sign(Sign::More),
        Op::MoreEq => Tok::Sign(Sign::MoreEq),
        Op::Same => Tok::Sign(Sign::Equal),
        Op::Differs => Tok::Sign(Sign::Differs),
        Op::And => Tok::Word(Keyword::And),
        Op::Or => Tok::Word(Keyword::Or),
        Op::Not => Tok::Word(Keyword::Not),
    }
}

/// Writes an expression in a place that requires a level. It writes parentheses if the level of the expression is
/// lower.
#[cycle(expressions)]
pub fn expression<K: Sink>(
    names: &Names,
    sink: &mut K,
    progress: &mut Progress,
    need: u8,
    expr: &Expr,
)
    requires { are_known names.now (expression_tokens need (expression_of expr.now)) ≡ true }
    ensures { Prints names.now (expression_tokens need (expression_of expr.now)) (state progress.old (K.written sink.old) (K.faults sink.old))
        (state progress.new (K.written sink.new) (K.faults sink.new)) }
{
    if need <= level(expr) {
        bare(names, sink, progress, expr);
    } else {
        say(names, sink, progress, Tok::Sign(Sign::LeftParen));
        bare(names, sink, progress, expr);
        say(names, sink, progress, Tok::Sign(Sign::RightParen));
    }
}

/// Writes an expression without parentheses around it.
#[cycle(expressions)]
fn bare<K: Sink>(names: &Names, sink: &mut K, progress: &mut Progress, expr: &Expr)
    requires { are_known names.now (bare_tokens (expression_of expr.now)) ≡ true }
    ensures { Prints names.now (bare_tokens (expression_of expr.now)) (state progress.old (K.written sink.old) (K.faults sink.old)) (state progress.new (K.written sink.new) (K.faults sink.new)) }
{
    match expr {
        Expr::Int { value, .. } => say(names, sink, progress, Tok::Int(*value)),
        Expr::Bool { value, .. } => say(names, sink, progress, truth_token(*value)),
        Expr::Nil { .. } => say(names, sink, progress, Tok::Word(Keyword::Nil)),
        Expr::Me { .. } => say(names, sink, progress, Tok::Word(Keyword::SelfWord)),
        Expr::Var { name, .. } => say(names, sink, progress, Tok::Name(*name)),
        Expr::New { class, .. } => {
            say(names, sink, progress, Tok::Word(Keyword::New));
            say(names, sink, progress, Tok::Name(*class));
        }
        Expr::Unary { op, arg, .. } => {
            say(names, sink, progress, operator_token(*op));
            expression(names, sink, progress, PREFIX, arg);
        }
        Expr::Binary {
            op,
            left,
            right,
            ..
        } => {
            expression(names, sink, progress, left_need(*op), left);
            say(names, sink, progress, operator_token(*op));
            expression(names, sink, progress, right_need(*op), right);
        }
        Expr::Call { method, args, .. } => call(names, sink, progress, *method, args.items()),
        Expr::Send {
            to,
            method,
            args,
            ..
        } => {
            expression(names, sink, progress, SEND, to);
            say(names, sink, progress, Tok::Sign(Sign::Bang));
            call(names, sink, progress, *method, args.items());
        }
    }
}

/// Writes the name of a method and its arguments in parentheses.
#[cycle(expressions)]
pub fn call<K: Sink>(
    names: &Names,
    sink: &mut K,
    progress: &mut Progress,
    method: NameId,
    args: &[Expr],
)
    requires { are_known names.now (call_tokens method.0 (expressions_of args.now)) ≡ true }
    ensures { Prints names.now (call_tokens method.0 (expressions_of args.now)) (state progress.old (K.written sink.old) (K.faults sink.old))
        (state progress.new (K.written sink.new) (K.faults sink.new)) }
{
    say(names, sink, progress, Tok::Name(method));
    say(names, sink, progress, Tok::Sign(Sign::LeftParen));
    arguments(names, sink, progress, args);
    say(names, sink, progress, Tok::Sign(Sign::RightParen));
}

#[cycle(expressions)]
fn arguments<K: Sink>(names: &Names, sink: &mut K, progress: &mut Progress, args: &[Expr])
    requires { are_known names.now (separated_by (SignToken Sign.Comma) (argument_tokens (expressions_of args.now))) ≡ true }
    ensures { Prints names.now (separated_by (SignToken Sign.Comma) (argument_tokens (expressions_of args.now))) (state progress.old (K.written sink.old) (K.faults sink.old))
        (state progress.new (K.written sink.new) (K.faults sink.new)) }
{
    for (i, arg) in args.iter().enumerate() {
        separate(names, sink, progress, Sign::Comma, i);
        expression(names, sink, progress, ANY, arg);
    }
}
