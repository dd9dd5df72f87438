//! Access to the tokens one at a time: those of a slice, followed by `End`.
ghost use Rattle.pool_syntax.specs.Tokens.{toks};
ghost use Rattle.std.specs.Prelude.{◌≡◌, ◌≢◌, ◌^◌, ◌<◌, ◌≤◌, length, Some, IfOk, IfErr, OnOk, slice_get, IsTrue, IsFalse};
ghost use Rattle.run_types.specs.declared.types.NameId.{NameId as AnyName};
ghost use Rattle.expression_parser.specs.Nested.{IsNestedBelow};
ghost use Rattle.expression_parser.specs.Parses.{RunsToEnd, seen};

use crate::fault::SyntaxFault;
use pool_syntax::{Named, Tok, Token};

/// The tokens that the parser looks at, followed by `End`: fewer than 2^32, none of them deeper than 201. So calls
/// nest no deeper than that.
#[derive(Clone, Copy)]
pub struct Source<'a> {
    pub tokens: &'a [Token],
    ghost small: { length tokens.now < 2 ^ 32 },
    ghost ended: { RunsToEnd tokens.now },
    ghost nested: { IsNestedBelow (toks tokens.now) (length tokens.now) },
}

/// Reports the token with the number `at`, which is `End` after the last one.
pub fn peek(source: Source, at: usize) -> Tok
    requires { at ≤ length source.tokens.now }
    ensures { slice_get (seen source.entry.tokens.now) at ≡ Some result }
{
    match source.tokens.get(at) {
        Some(token) => token.tok,
        None => Tok::End,
    }
}

/// Reports whether the token with the number `at` is this one.
pub fn is_at(source: Source, at: usize, token: Tok) -> bool
    requires { at ≤ length source.tokens.now }
    ensures yes { IsTrue result → slice_get (seen source.entry.tokens.now) at ≡ Some token }
    ensures no { IsFalse result → slice_get (seen source.entry.tokens.now) at ≢ Some token }
{
    peek(source, at) == token
}

/// Accepts this token, or reports `Unexpected` if another token is there.
pub fn expect(source: Source, at: usize, token: Tok) -> Result<(), SyntaxFault>
    requires within { at ≤ length source.tokens.now }
    ensures ok { OnOk result (slice_get (seen source.entry.tokens.now) at ≡ Some token) }
    ensures err { IfErr result (λ e. (e ≡ SyntaxFault.Unexpected at) × (slice_get (seen source.entry.tokens.now) at ≢ Some token)) }
{
    if is_at(source, at, token) {
        Ok(())
    } else {
        Err(SyntaxFault::Unexpected { token: at as u32 })
    }
}

/// Reports the name at this token, or `Unexpected` if another token is there.
pub fn expect_name(source: Source, at: usize) -> Result<Named, SyntaxFault>
    requires within { at ≤ length source.tokens.now }
    ensures ok { IfOk result (λ n. (slice_get (seen source.entry.tokens.now) at ≡ Some (Tok.Name n.name)) × (n.pos ≡ at)) }
    ensures err { IfErr result (λ e. (e ≡ SyntaxFault.Unexpected at) × ((n : AnyName) → slice_get (seen source.entry.tokens.now) at ≢ Some (Tok.Name n))) }
{
    match peek(source, at) {
        Tok::Name(name) => Ok(Named {
            name,
            pos: at as u32,
        }),
        _ => Err(SyntaxFault::Unexpected { token: at as u32 }),
    }
}
