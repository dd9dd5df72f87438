//! Parsing of lists of names and of declared types.
ghost use Rattle.std.specs.Prelude.{◌≡◌, ◌+◌, ◌<◌, ◌≤◌, length, List as ListOf};
ghost use Rattle.pool_syntax.specs.declared.tree.Named.{Named as OneName};
ghost use Rattle.pool_grammar.specs.Rules.{names as names_phrase, list as list_phrase, kind as kind_phrase};
ghost use Rattle.expression_parser.specs.Literals.{kind_of};
ghost use Rattle.expression_parser.specs.Parses.{Parses, Advances};

use crate::fault::SyntaxFault;
use crate::source::{Source, expect, expect_name, is_at, peek};
use crate::steps::{pushed, read};
use pool_syntax::{Named, Sign, Tok};
use run_types::{Kind, List};
use std::alloc::Global;
use text_scan::Keyword;

/// Reports the declared type that the token is.
fn token_kind(token: Tok) -> Option<Kind>
    ensures { result ≡ kind_of token }
{
    match token {
        Tok::Word(Keyword::Int) => Some(Kind::Int),
        Tok::Word(Keyword::Bool) => Some(Kind::Bool),
        Tok::Name(name) => Some(Kind::Class(name)),
        _ => None,
    }
}

/// Parses the declared type at token `at`. Returns it with the number of its token, and the number of the token after
/// it. Reports `Unexpected` if another token is there.
pub fn kind(source: Source, at: usize) -> Result<((Kind, u32), usize), SyntaxFault>
    requires within { at ≤ length source.tokens.now }
    ensures parses { Parses source.entry.tokens.now kind_phrase at (λ k. k) result }
    ensures next { Advances source.entry.tokens.now at result }
{
    match token_kind(peek(source, at)) {
        Some(kind) => Ok(((kind, at as u32), at + 1)),
        None => Err(SyntaxFault::Unexpected { token: at as u32 }),
    }
}

/// Parses one or more names, with commas between them, from token `at` on. Returns them and the number of the token
/// after them. Reports `Unexpected` at the first token that is not expected, or `Memory`.
pub fn names(alloc: Global, source: Source, at: usize) -> Result<(List<Named>, usize), SyntaxFault>
    requires within { at ≤ length source.tokens.now }
    ensures parses { Parses source.entry.tokens.now names_phrase at (λ ns. ns) result }
    ensures next { Advances source.entry.tokens.now at result }
{
    let first = read!(expect_name(source, at));
    let list = List::make(alloc);
    let mut list = read!(pushed(list, first));
    let mut next = at + 1;
    'names: while is_at(source, next, Tok::Sign(Sign::Comma)) {
        let name = read!(expect_name(source, next + 1));
        list = read!(pushed(list, name));
        next += 2;
    }
    Ok((list, next))
}

/// Parses an answer list, names in parentheses, from token `at` on. Returns them and the number of the token after the
/// list. Reports `Unexpected` at the first token that is not expected, or `Memory`.
pub fn answer_list(
    alloc: Global,
    source: Source,
    at: usize,
) -> Result<(List<Named>, usize), SyntaxFault>
    requires within { at ≤ length source.tokens.now }
    ensures parses { Parses source.entry.tokens.now list_phrase at (λ ns. ns) result }
    ensures next { Advances source.entry.tokens.now at result }
{
    read!(expect(source, at, Tok::Sign(Sign::LeftParen)));
    let (list, next) = read!(names(alloc, source, at + 1));
    read!(expect(source, next, Tok::Sign(Sign::RightParen)));
    Ok((list, next + 1))
}
