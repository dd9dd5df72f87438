//! Parsing of statements, with one function for each form of phrase.
ghost use Rattle.std.specs.Prelude.{◌≡◌, ◌≢◌, ◌+◌, ◌<◌, ◌≤◌, length, Some, slice_get, List as ListOf, Option as OptionOf};
ghost use Rattle.pool_syntax.specs.declared.tree.Named.{Named as OneName};
ghost use Rattle.pool_grammar.specs.Rules.{stmts as stmts_phrase, more_stmts, stmt as stmt_phrase, alt as alt_phrase, more_alts};
ghost use Rattle.pool_syntax.specs.TreeOf.{alternatives_of, expression_of, statement_of, statements_of};
ghost use Rattle.statement_parser.specs.Alternatives.{alternative_of};
ghost use Rattle.expression_parser.specs.Reads.{begins_statement as token_begins_statement};
ghost use Rattle.statement_parser.specs.Tails.{sending as sending_rule, else_part as else_rule, then_part as then_rule};
ghost use Rattle.expression_parser.specs.Parses.{seen, Parses, ParsesRule, Advances, Stays};

use crate::steps::read;
use expression_parser::{
    Grouping, Source, SyntaxFault, answer_list, arguments, expect, expect_name, grouped, is_at,
    peek, postfix, pushed,
};
use pool_syntax::{Alt, Expr, Named, Sign, Stmt, Tok};
use run_types::List;
use std::alloc::Global;
use text_scan::Keyword;

/// Reports whether a statement can begin with the token.
fn begins_statement(token: Tok) -> bool
    ensures { result ≡ token_begins_statement token }
{
    match token {
        Tok::Name(_) | Tok::Int(_) | Tok::Sign(Sign::LeftParen) => true,
        Tok::Word(Keyword::Write)
        | Tok::Word(Keyword::If)
        | Tok::Word(Keyword::While)
        | Tok::Word(Keyword::Answer)
        | Tok::Word(Keyword::Select)
        | Tok::Word(Keyword::New)
        | Tok::Word(Keyword::SelfWord)
        | Tok::Word(Keyword::Nil)
        | Tok::Word(Keyword::True)
        | Tok::Word(Keyword::False) => true,
        _ => false,
    }
}

/// Parses an invocation, or an asynchronous send.
fn sending(alloc: Global, source: Source, at: usize) -> Result<(Stmt, usize), SyntaxFault>
    requires within { at ≤ length source.tokens.now }
    ensures parses { ParsesRule source.entry.tokens.now stmt_phrase sending_rule at statement_of result }
    ensures next { Advances source.entry.tokens.now at result }
{
    let (to, next) = read!(postfix(alloc, source, at));
    if is_at(source, next, Tok::Sign(Sign::BangBang)) {
        let method = read!(expect_name(source, next + 1), to);
        let (args, after) = read!(arguments(alloc, source, next + 2), to);
        Ok((
            Stmt::Async {
                to: to.tree,
                method,
                args,
            },
            after,
        ))
    } else if to.invokes {
        Ok((Stmt::Do { value: to.tree }, next))
    } else {
        drop(to);
        Err(SyntaxFault::Unexpected { token: next as u32 })
    }
}

/// Parses a statement that begins with a name: an assignment, a send or a call.
fn named_statement(
    alloc: Global,
    source: Source,
    at: usize,
    target: Named,
) -> Result<(Stmt, usize), SyntaxFault>
    requires name { slice_get (seen source.tokens.now) at ≡ Some (Tok.Name target.name) }
    requires place { target.pos ≡ at }
    requires within { at + 1 ≤ length source.tokens.now }
    ensures parses { Parses source.entry.tokens.now stmt_phrase at statement_of result }
    ensures next { Advances source.entry.tokens.now at result }
{
    if is_at(source, at + 1, Tok::Sign(Sign::Becomes)) {
        let (value, next) = read!(grouped(alloc, source, at + 2, Grouping::Or));
        Ok((Stmt::Assign { target, value }, next))
    } else {
        sending(alloc, source, at)
    }
}

/// Parses the string or the expression after `write`.
fn writing(alloc: Global, source: Source, at: usize) -> Result<(Stmt, usize), SyntaxFault>
    requires word { slice_get (seen source.tokens.now) at ≡ Some (Tok.Word Keyword.Write) }
    requires within { at + 1 ≤ length source.tokens.now }
    ensures parses { Parses source.entry.tokens.now stmt_phrase at statement_of result }
    ensures next { Advances source.entry.tokens.now at result }
{
    match peek(source, at + 1) {
        Tok::Str(text) => Ok((Stmt::WriteText { text }, at + 2)),
        _ => {
            let (value, next) = read!(grouped(alloc, source, at + 1, Grouping::Or));
            Ok((Stmt::Write { value }, next))
        }
    }
}

/// Parses the answer list after `answer`.
fn answering(alloc: Global, source: Source, at: usize) -> Result<(Stmt, usize), SyntaxFault>
    requires word { slice_get (seen source.tokens.now) at ≡ Some (Tok.Word Keyword.Answer) }
    requires within { at + 1 ≤ length source.tokens.now }
    ensures parses { Parses source.entry.tokens.now stmt_phrase at statement_of result }
    ensures next { Advances source.entry.tokens.now at result }
{
    let (names, next) = read!(answer_list(alloc, source, at + 1));
    Ok((Stmt::Answer { names }, next))
}

#[cycle(statements)]
fn statement(alloc: Global, source: Source, at: usize) -> Result<(Stmt, usize), SyntaxFault>
    requires within { at ≤ length source.tokens.now }
    ensures parses { Parses source.entry.tokens.now stmt_phrase at statement_of result }
    ensures next { Advances source.entry.tokens.now at result }
{
    match peek(source, at) {
        Tok::Name(name) => {
            let target = Named {
                name,
                pos: at as u32,
            };
            named_statement(alloc, source, at, target)
        }
        Tok::Word(word) => worded_statement(alloc, source, at, word),
        _ => sending(alloc, source, at),
    }
}

/// Parses a statement that begins with a keyword.
#[cycle(statements)]
fn worded_statement(
    alloc: Global,
    source: Source,
    at: usize,
    word: Keyword,
) -> Result<(Stmt, usize), SyntaxFault>
    requires word { slice_get (seen source.tokens.now) at ≡ Some (Tok.Word word) }
    requires within { at + 1 ≤ length source.tokens.now }
    ensures parses { Parses source.entry.tokens.now stmt_phrase at statement_of result }
    ensures next { Advances source.entry.tokens.now at result }
{
    match word {
        Keyword::Write => writing(alloc, source, at),
        Keyword::Answer => answering(alloc, source, at),
        Keyword::If => conditional(alloc, source, at),
        Keyword::While => repetition(alloc, source, at),
        Keyword::Select => selection(alloc, source, at),
        _ => sending(alloc, source, at),
    }
}

#[cycle(statements)]
fn conditional(alloc: Global, source: Source, at: usize) -> Result<(Stmt, usize), SyntaxFault>
    requires word { slice_get (seen source.tokens.now) at ≡ Some (Tok.Word Keyword.If) }
    requires within { at + 1 ≤ length source.tokens.now }
    ensures parses { Parses source.entry.tokens.now stmt_phrase at statement_of result }
    ensures next { Advances source.entry.tokens.now at result }
{
    let (cond, next) = read!(grouped(alloc, source, at + 1, Grouping::Or));
    read!(expect(source, next, Tok::Word(Keyword::Then)), cond);
    let (yes, after) = read!(statements(alloc, source, next + 1), cond);
    else_part(alloc, source, after, cond, yes)
}

/// Parses the `else` part of a conditional, if there is one, and its end.
#[cycle(statements)]
fn else_part(
    alloc: Global,
    source: Source,
    at: usize,
    cond: Expr,
    yes: List<Stmt>,
) -> Result<(Stmt, usize), SyntaxFault>
    requires within { at ≤ length source.tokens.now }
    ensures parses { ParsesRule source.entry.tokens.now stmt_phrase (else_rule (expression_of cond) (statements_of yes)) at statement_of result }
    ensures next { Advances source.entry.tokens.now at result }
{
    if is_at(source, at, Tok::Word(Keyword::Else)) {
        let (no, next) = read!(statements(alloc, source, at + 1), cond);
        read!(expect(source, next, Tok::Word(Keyword::Fi)), cond);
        Ok((Stmt::If { cond, yes, no }, next + 1))
    } else {
        read!(expect(source, at, Tok::Word(Keyword::Fi)), cond);
        let no = List::make(alloc);
        Ok((Stmt::If { cond, yes, no }, at + 1))
    }
}

#[cycle(statements)]
fn repetition(alloc: Global, source: Source, at: usize) -> Result<(Stmt, usize), SyntaxFault>
    requires word { slice_get (seen source.tokens.now) at ≡ Some (Tok.Word Keyword.While) }
    requires within { at + 1 ≤ length source.tokens.now }
    ensures parses { Parses source.entry.tokens.now stmt_phrase at statement_of result }
    ensures next { Advances source.entry.tokens.now at result }
{
    let (cond, next) = read!(grouped(alloc, source, at + 1, Grouping::Or));
    read!(expect(source, next, Tok::Word(Keyword::Do)), cond);
    let (body, after) = read!(statements(alloc, source, next + 1), cond);
    read!(expect(source, after, Tok::Word(Keyword::Od)), cond);
    Ok((Stmt::While { cond, body }, after + 1))
}

#[cycle(statements)]
fn selection(alloc: Global, source: Source, at: usize) -> Result<(Stmt, usize), SyntaxFault>
    requires word { slice_get (seen source.tokens.now) at ≡ Some (Tok.Word Keyword.Select) }
    requires within { at + 1 ≤ length source.tokens.now }
    ensures parses { Parses source.entry.tokens.now stmt_phrase at statement_of result }
    ensures next { Advances source.entry.tokens.now at result }
{
    let (first, next) = read!(alternative(alloc, source, at + 1));
    let alts = List::make(alloc);
    let alts = read!(pushed(alts, first));
    let (alts, after) = read!(more_alternatives(alloc, source, next, alts));
    read!(expect(source, after, Tok::Word(Keyword::End)));
    Ok((Stmt::Select { alts }, after + 1))
}

#[cycle(statements)]
fn more_alternatives(
    alloc: Global,
    source: Source,
    at: usize,
    mut alts: List<Alt>,
) -> Result<(List<Alt>, usize), SyntaxFault>
    requires within { at ≤ length source.tokens.now }
    ensures parses { Parses source.entry.tokens.now (more_alts (alternatives_of alts)) at alternatives_of result }
    ensures next { Stays source.entry.tokens.now at result }
{
    let mut next = at;
    'alternatives: while is_at(source, next, Tok::Word(Keyword::When)) {
        let (alt, after) = read!(alternative(alloc, source, next));
        alts = read!(pushed(alts, alt));
        next = after;
    }
    Ok((alts, next))
}

#[cycle(statements)]
fn alternative(alloc: Global, source: Source, at: usize) -> Result<(Alt, usize), SyntaxFault>
    requires within { at ≤ length source.tokens.now }
    ensures parses { Parses source.entry.tokens.now alt_phrase at alternative_of result }
    ensures next { Advances source.entry.tokens.now at result }
{
    read!(expect(source, at, Tok::Word(Keyword::When)));
    let (guard, next) = read!(grouped(alloc, source, at + 1, Grouping::Or));
    if is_at(source, next, Tok::Word(Keyword::Answer)) {
        let (names, after) = read!(answer_list(alloc, source, next + 1), guard);
        work(alloc, source, after, guard, Some(names))
    } else {
        work(alloc, source, next, guard, None)
    }
}

/// Parses the statements of an alternative, after its guard and answer list.
#[cycle(statements)]
fn work(
    alloc: Global,
    source: Source,
    at: usize,
    guard: Expr,
    answer: Option<List<Named>>,
) -> Result<(Alt, usize), SyntaxFault>
    requires within { at ≤ length source.tokens.now }
    ensures parses { ParsesRule source.entry.tokens.now alt_phrase (then_rule (expression_of guard) answer) at alternative_of result }
    ensures next { Advances source.entry.tokens.now at result }
{
    read!(expect(source, at, Tok::Word(Keyword::Then)), guard, answer);
    let (work, next) = read!(statements(alloc, source, at + 1), guard, answer);
    Ok((
        Alt {
            guard,
            answer,
            work,
        },
        next,
    ))
}

/// Parses any number of statements, with semicolons between them, from token `at` on. Returns them and the number of
/// the token after them. Reports `Unexpected` at the first token that is not expected, or `Memory`.
#[cycle(statements)]
pub fn statements(
    alloc: Global,
    source: Source,
    at: usize,
) -> Result<(List<Stmt>, usize), SyntaxFault>
    requires within { at ≤ length source.tokens.now }
    ensures parses { Parses source.entry.tokens.now stmts_phrase at statements_of result }
    ensures next { Stays source.entry.tokens.now at result }
{
    if !begins_statement(peek(source, at)) {
        return Ok((List::make(alloc), at));
    }
    let (first, after) = read!(statement(alloc, source, at));
    let list = List::make(alloc);
    let mut list = read!(pushed(list, first));
    let mut next = after;
    'statements: while is_at(source, next, Tok::Sign(Sign::Semicolon)) {
        let (statement, after) = read!(statement(alloc, source, next + 1));
        list = read!(pushed(list, statement));
        next = after;
    }
    Ok((list, next))
}
