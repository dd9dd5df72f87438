//! Parsing of expressions, with one function for each form of phrase.
ghost use Rattle.std.specs.Prelude.{◌≡◌, ◌≢◌, ◌+◌, ◌<◌, ◌≤◌, length, Some, None, IfOk, IfErr, IfSome, option_map, slice_get};
ghost use Rattle.pool_grammar.specs.Rules.{group, comparison as comparison_level, factor as factor_level, postfix as postfix_level, primary as primary_level, args as args_phrase, more_args};
ghost use Rattle.pool_grammar.specs.Rules.{expression as expression_phrase};
ghost use Rattle.pool_grammar.specs.Grammar.{operator_of, operand as operand_level};
ghost use Rattle.pool_syntax.specs.Terms.{Infix, Prefix, Send};
ghost use Rattle.pool_syntax.specs.TreeOf.{expression_of, expressions_of};
ghost use Rattle.run_types.specs.declared.types.NameId.{NameId as AnyName};
ghost use Rattle.pool_syntax.specs.declared.token.Tok.{Tok as AnyTok};
ghost use Rattle.text_scan.specs.declared.keywords.Keyword.{Keyword as AnyWord};
ghost use Rattle.expression_parser.specs.declared.fault.SyntaxFault.TheVariants.{Memory};
ghost use Rattle.expression_parser.specs.Parses.{seen, Parses, ParsesExpression, TellsInvocation, postfix_tree, Advances, Stays};
ghost use Rattle.expression_parser.specs.Groups.{group_of};
ghost use Rattle.expression_parser.specs.Literals.{literal_of};

use crate::fault::SyntaxFault;
use crate::source::{Source, expect, expect_name, is_at, peek};
use crate::steps::{pushed, read};
use pool_syntax::{Expr, Named, Sign, Tok};
use run_types::{List, NameId, Op};
use std::alloc::Global;
use text_scan::Keyword;

/// The levels of left-associative operators.
#[derive(Clone, Copy)]
pub enum Grouping {
    Or,
    And,
    Sum,
    Product,
}

/// A postfix expression, and whether it is an invocation: a call, a `new` or a send, without parentheses around it.
#[derive(Drop)]
pub struct PostfixTree {
    pub tree: Expr,
    pub invokes: bool,
}

/// The tree in a box. If memory runs out, the tree and the values named after it are dropped.
macro_rules! boxed {
    ($alloc:expr, $tree:ident $(, $owned:ident)?) => {
        match Box::new($alloc, $tree) {
            Ok(boxed) => boxed,
            Err(failed) => {
                drop(failed);
                $(drop($owned);)?
                return Err(SyntaxFault::Memory);
            }
        }
    };
}

/// Reports the operator of this level that the token is.
fn operator(grouping: Grouping, token: Tok) -> Option<Op>
    ensures table { result ≡ operator_of (group (group_of grouping)) token }
    ensures inside { IfSome result (λ _. token ≢ Tok.End) }
{
    match (grouping, token) {
        (Grouping::Or, Tok::Word(Keyword::Or)) => Some(Op::Or),
        (Grouping::And, Tok::Word(Keyword::And)) => Some(Op::And),
        (Grouping::Sum, Tok::Sign(Sign::Plus)) => Some(Op::Add),
        (Grouping::Sum, Tok::Sign(Sign::Minus)) => Some(Op::Sub),
        (Grouping::Product, Tok::Sign(Sign::Star)) => Some(Op::Mul),
        (Grouping::Product, Tok::Sign(Sign::Slash)) => Some(Op::Div),
        (Grouping::Product, Tok::Sign(Sign::Percent)) => Some(Op::Rem),
        _ => None,
    }
}

/// Reports the comparison operator that the token is.
fn comparison_operator(token: Tok) -> Option<Op>
    ensures { result ≡ operator_of comparison_level token }
{
    match token {
        Tok::Sign(Sign::Equal) => Some(Op::Same),
        Tok::Sign(Sign::Differs) => Some(Op::Differs),
        Tok::Sign(Sign::Less) => Some(Op::Less),
        Tok::Sign(Sign::LessEq) => Some(Op::LessEq),
        Tok::Sign(Sign::More) => Some(Op::More),
        Tok::Sign(Sign::MoreEq) => Some(Op::MoreEq),
        _ => None,
    }
}

/// Reports the prefix operator that the token is.
fn prefix_operator(token: Tok) -> Option<Op>
    ensures { result ≡ operator_of factor_level token }
{
    match token {
        Tok::Word(Keyword::Not) => Some(Op::Not),
        Tok::Sign(Sign::Minus) => Some(Op::Neg),
        _ => None,
    }
}

/// Reports the literal or `self` that the token is.
fn literal(token: Tok, pos: u32) -> Option<Expr>
    ensures { option_map expression_of result ≡ literal_of token pos }
{
    match token {
        Tok::Int(value) => Some(Expr::Int { value, pos }),
        Tok::Word(Keyword::True) => Some(Expr::Bool { value: true, pos }),
        Tok::Word(Keyword::False) => Some(Expr::Bool { value: false, pos }),
        Tok::Word(Keyword::Nil) => Some(Expr::Nil { pos }),
        Tok::Word(Keyword::SelfWord) => Some(Expr::Me { pos }),
        _ => None,
    }
}

fn unary(alloc: Global, op: Op, arg: Expr, pos: u32) -> Result<Expr, SyntaxFault>
    ensures ok { IfOk result (λ e. expression_of e ≡ Prefix op (expression_of arg) pos) }
    ensures err { IfErr result (λ e. e ≡ Memory) }
{
    let arg = boxed!(alloc, arg);
    Ok(Expr::Unary { op, arg, pos })
}

fn binary(alloc: Global, op: Op, left: Expr, right: Expr, pos: u32) -> Result<Expr, SyntaxFault>
    ensures ok { IfOk result (λ e. expression_of e ≡ Infix op (expression_of left) (expression_of right) pos) }
    ensures err { IfErr result (λ e. e ≡ Memory) }
{
    let left = boxed!(alloc, left, right);
    let right = boxed!(alloc, right);
    Ok(Expr::Binary {
        op,
        left,
        right,
        pos,
    })
}

fn send(alloc: Global, to: Expr, method: Named, args: List<Expr>) -> Result<Expr, SyntaxFault>
    ensures ok { IfOk result (λ e. expression_of e ≡ Send (expression_of to) method.name.0 (expressions_of args) method.pos) }
    ensures err { IfErr result (λ e. e ≡ Memory) }
{
    let to = boxed!(alloc, to);
    Ok(Expr::Send {
        to,
        method: method.name,
        args,
        pos: method.pos,
    })
}

/// Parses an operand of the operators of this level.
#[cycle(expressions)]
fn operand(
    alloc: Global,
    source: Source,
    at: usize,
    grouping: Grouping,
) -> Result<(Expr, usize), SyntaxFault>
    requires within { at ≤ length source.tokens.now }
    ensures parses { ParsesExpression source.entry.tokens.now (operand_level (group_of grouping)) at result }
    ensures next { Advances source.entry.tokens.now at result }
{
    match grouping {
        Grouping::Or => grouped(alloc, source, at, Grouping::And),
        Grouping::And => comparison(alloc, source, at),
        Grouping::Sum => grouped(alloc, source, at, Grouping::Product),
        Grouping::Product => factor(alloc, source, at),
    }
}

/// Parses operands with the operators of this level between them, from token `at` on. They group to the left. Returns
/// the tree and the number of the token after it. Reports `Unexpected` at the first token that is not expected, or
/// `Memory`.
#[cycle(expressions)]
pub fn grouped(
    alloc: Global,
    source: Source,
    at: usize,
    grouping: Grouping,
) -> Result<(Expr, usize), SyntaxFault>
    requires within { at ≤ length source.tokens.now }
    ensures parses { ParsesExpression source.entry.tokens.now (group (group_of grouping)) at result }
    ensures next { Advances source.entry.tokens.now at result }
{
    let (mut left, mut next) = read!(operand(alloc, source, at, grouping));
    'operands: while let Some(op) = operator(grouping, peek(source, next)) {
        let (right, after) = read!(operand(alloc, source, next + 1, grouping), left);
        left = read!(binary(alloc, op, left, right, next as u32));
        next = after;
    }
    Ok((left, next))
}

/// Parses a sum, or two with a comparison between them.
#[cycle(expressions)]
fn comparison(alloc: Global, source: Source, at: usize) -> Result<(Expr, usize), SyntaxFault>
    requires within { at ≤ length source.tokens.now }
    ensures parses { ParsesExpression source.entry.tokens.now comparison_level at result }
    ensures next { Advances source.entry.tokens.now at result }
{
    let (left, next) = read!(grouped(alloc, source, at, Grouping::Sum));
    match comparison_operator(peek(source, next)) {
        None => Ok((left, next)),
        Some(op) => {
            let (right, after) = read!(grouped(alloc, source, next + 1, Grouping::Sum), left);
            Ok((read!(binary(alloc, op, left, right, next as u32)), after))
        }
    }
}

#[cycle(expressions)]
fn factor(alloc: Global, source: Source, at: usize) -> Result<(Expr, usize), SyntaxFault>
    requires within { at ≤ length source.tokens.now }
    ensures parses { ParsesExpression source.entry.tokens.now factor_level at result }
    ensures next { Advances source.entry.tokens.now at result }
{
    match prefix_operator(peek(source, at)) {
        None => {
            let (postfix, next) = read!(postfix(alloc, source, at));
            Ok((postfix.tree, next))
        }
        Some(op) => {
            let (arg, next) = read!(factor(alloc, source, at + 1));
            Ok((read!(unary(alloc, op, arg, at as u32)), next))
        }
    }
}

/// Parses a primary, and sends to it, from token `at` on. Returns the tree and the number of the token after it.
/// Reports `Unexpected` at the first token that is not expected, or `Memory`.
#[cycle(expressions)]
pub fn postfix(
    alloc: Global,
    source: Source,
    at: usize,
) -> Result<(PostfixTree, usize), SyntaxFault>
    requires within { at ≤ length source.tokens.now }
    ensures parses { Parses source.entry.tokens.now (expression_phrase postfix_level) at postfix_tree result }
    ensures invokes { TellsInvocation source.entry.tokens.now at result }
    ensures next { Advances source.entry.tokens.now at result }
{
    let (mut to, mut next) = read!(primary(alloc, source, at));
    'sends: while is_at(source, next, Tok::Sign(Sign::Bang)) {
        let method = read!(expect_name(source, next + 1), to);
        let (args, after) = read!(arguments(alloc, source, next + 2), to);
        to = PostfixTree {
            tree: read!(send(alloc, to.tree, method, args)),
            invokes: true,
        };
        next = after;
    }
    Ok((to, next))
}

#[cycle(expressions)]
fn primary(alloc: Global, source: Source, at: usize) -> Result<(PostfixTree, usize), SyntaxFault>
    requires within { at ≤ length source.tokens.now }
    ensures parses { Parses source.entry.tokens.now (expression_phrase primary_level) at postfix_tree result }
    ensures invokes { TellsInvocation source.entry.tokens.now at result }
    ensures next { Advances source.entry.tokens.now at result }
{
    let token = peek(source, at);
    if let Some(tree) = literal(token, at as u32) {
        return Ok((
            PostfixTree {
                tree,
                invokes: false,
            },
            at + 1,
        ));
    }
    match token {
        Tok::Name(name) => named(alloc, source, at, name),
        Tok::Word(word) => created(source, at, word),
        _ => parenthesized(alloc, source, at),
    }
}

/// Parses an expression in parentheses.
#[cycle(expressions)]
fn parenthesized(
    alloc: Global,
    source: Source,
    at: usize,
) -> Result<(PostfixTree, usize), SyntaxFault>
    requires no_literal { (t : AnyTok) → slice_get (seen source.tokens.now) at ≡ Some t → literal_of t at ≡ None }
    requires no_word { (w : AnyWord) → slice_get (seen source.tokens.now) at ≢ Some (Tok.Word w) }
    requires no_name { (n : AnyName) → slice_get (seen source.tokens.now) at ≢ Some (Tok.Name n) }
    requires within { at ≤ length source.tokens.now }
    ensures parses { Parses source.entry.tokens.now (expression_phrase primary_level) at postfix_tree result }
    ensures invokes { TellsInvocation source.entry.tokens.now at result }
    ensures next { Advances source.entry.tokens.now at result }
{
    read!(expect(source, at, Tok::Sign(Sign::LeftParen)));
    let (tree, next) = read!(grouped(alloc, source, at + 1, Grouping::Or));
    read!(expect(source, next, Tok::Sign(Sign::RightParen)), tree);
    Ok((
        PostfixTree {
            tree,
            invokes: false,
        },
        next + 1,
    ))
}

/// Parses a variable or a call.
#[cycle(expressions)]
fn named(
    alloc: Global,
    source: Source,
    at: usize,
    name: NameId,
) -> Result<(PostfixTree, usize), SyntaxFault>
    requires name { slice_get (seen source.tokens.now) at ≡ Some (Tok.Name name) }
    requires within { at + 1 ≤ length source.tokens.now }
    ensures parses { Parses source.entry.tokens.now (expression_phrase primary_level) at postfix_tree result }
    ensures invokes { TellsInvocation source.entry.tokens.now at result }
    ensures next { Advances source.entry.tokens.now at result }
{
    if is_at(source, at + 1, Tok::Sign(Sign::LeftParen)) {
        let (args, next) = read!(arguments(alloc, source, at + 1));
        let tree = Expr::Call {
            method: name,
            args,
            pos: at as u32,
        };
        Ok((
            PostfixTree {
                tree,
                invokes: true,
            },
            next,
        ))
    } else {
        let tree = Expr::Var {
            name,
            pos: at as u32,
        };
        Ok((
            PostfixTree {
                tree,
                invokes: false,
            },
            at + 1,
        ))
    }
}

/// Parses a `new` expression, if the keyword is `new`.
fn created(source: Source, at: usize, word: Keyword) -> Result<(PostfixTree, usize), SyntaxFault>
    requires word { slice_get (seen source.tokens.now) at ≡ Some (Tok.Word word) }
    requires no_literal { literal_of (Tok.Word word) at ≡ None }
    requires within { at + 1 ≤ length source.tokens.now }
    ensures parses { Parses source.entry.tokens.now (expression_phrase primary_level) at postfix_tree result }
    ensures invokes { TellsInvocation source.entry.tokens.now at result }
    ensures next { Advances source.entry.tokens.now at result }
{
    read!(expect(source, at, Tok::Word(Keyword::New)));
    let class = read!(expect_name(source, at + 1));
    let tree = Expr::New {
        class: class.name,
        pos: class.pos,
    };
    Ok((
        PostfixTree {
            tree,
            invokes: true,
        },
        at + 2,
    ))
}

/// Parses arguments in parentheses, from token `at` on. Returns them and the number of the token after them. Reports
/// `Unexpected` at the first token that is not expected, or `Memory`.
#[cycle(expressions)]
pub fn arguments(
    alloc: Global,
    source: Source,
    at: usize,
) -> Result<(List<Expr>, usize), SyntaxFault>
    requires within { at ≤ length source.tokens.now }
    ensures parses { Parses source.entry.tokens.now args_phrase at expressions_of result }
    ensures next { Advances source.entry.tokens.now at result }
{
    read!(expect(source, at, Tok::Sign(Sign::LeftParen)));
    if is_at(source, at + 1, Tok::Sign(Sign::RightParen)) {
        return Ok((List::make(alloc), at + 2));
    }
    let (first, next) = read!(grouped(alloc, source, at + 1, Grouping::Or));
    let args = List::make(alloc);
    let args = read!(pushed(args, first));
    let (args, next) = read!(more_arguments(alloc, source, next, args));
    read!(expect(source, next, Tok::Sign(Sign::RightParen)));
    Ok((args, next + 1))
}

#[cycle(expressions)]
fn more_arguments(
    alloc: Global,
    source: Source,
    at: usize,
    mut args: List<Expr>,
) -> Result<(List<Expr>, usize), SyntaxFault>
    requires within { at ≤ length source.tokens.now }
    ensures parses { Parses source.entry.tokens.now (more_args (expressions_of args)) at expressions_of result }
    ensures next { Stays source.entry.tokens.now at result }
{
    let mut next = at;
    'arguments: while is_at(source, next, Tok::Sign(Sign::Comma)) {
        let (arg, after) = read!(grouped(alloc, source, next + 1, Grouping::Or));
        args = read!(pushed(args, arg));
        next = after;
    }
    Ok((args, next))
}
