//! The first token whose depth exceeds the limit, found by one pass over the tokens.
ghost use Rattle.std.specs.Prelude.{◌≡◌, ◌^◌, ◌<◌, ◌≤◌, ◌∷◌, length, reverse, slice_get, Ok, Some, None, IfOk, IfErr, IfSome, List as ListOf};
ghost use Rattle.pool_syntax.specs.declared.token.Tok.{Tok as OneToken};
ghost use Rattle.pool_syntax.specs.Tokens.{toks};
ghost use Rattle.pool_grammar.specs.Programs.{IsShallowBelow};
ghost use Rattle.pool_grammar.specs.Nesting.{role as nesting_role, IsFirstTooDeep};
ghost use Rattle.expression_parser.specs.declared.fault.SyntaxFault.TheVariants.{Memory};
ghost use Rattle.pool_parser.specs.Depths.{role_of, depth_at, Counts};

use expression_parser::SyntaxFault;
use pool_syntax::{Sign, Tok, Token};
use std::alloc::Global;
use text_scan::Keyword;

/// The largest depth that a token may have.
const DEEPEST: u32 = 200;

/// The role of a token in the nesting.
#[derive(Clone, Copy)]
enum TokenRole {
    Opening,
    /// An opening that `end` closes and that is not counted.
    Beginning,
    Closing,
    Operating,
    /// Between expressions, and in none of them.
    Parting,
    Plain,
}

/// The number of open brackets and operators that hold the next token: `held` if it continues the expression, and
/// `parted` if it does not.
#[derive(Clone, Copy)]
struct Level {
    held: u32,
    parted: u32,
}

fn word_role(word: Keyword) -> TokenRole
    ensures { role_of result ≡ nesting_role (Tok.Word word) }
{
    match word {
        Keyword::If | Keyword::While | Keyword::Select => TokenRole::Opening,
        Keyword::Begin | Keyword::Body => TokenRole::Beginning,
        Keyword::Fi | Keyword::Od | Keyword::End => TokenRole::Closing,
        Keyword::Or | Keyword::And | Keyword::Not => TokenRole::Operating,
        Keyword::Class
        | Keyword::Var
        | Keyword::Method
        | Keyword::Local
        | Keyword::Result
        | Keyword::Post
        | Keyword::Then
        | Keyword::Else
        | Keyword::Do
        | Keyword::Answer
        | Keyword::When
        | Keyword::Write => TokenRole::Parting,
        _ => TokenRole::Plain,
    }
}

fn sign_role(sign: Sign) -> TokenRole
    ensures { role_of result ≡ nesting_role (Tok.Sign sign) }
{
    match sign {
        Sign::LeftParen => TokenRole::Opening,
        Sign::RightParen => TokenRole::Closing,
        Sign::Becomes | Sign::Colon | Sign::Semicolon | Sign::Comma => TokenRole::Parting,
        _ => TokenRole::Operating,
    }
}

fn token_role(token: Tok) -> TokenRole
    ensures { role_of result ≡ nesting_role token }
{
    match token {
        Tok::Word(word) => word_role(word),
        Tok::Sign(sign) => sign_role(sign),
        Tok::End => TokenRole::Parting,
        _ => TokenRole::Plain,
    }
}

/// Reports the token with this number.
fn token_at(tokens: &[Token], at: usize) -> Tok
    requires { at < length tokens.now }
    ensures { slice_get (toks tokens.now) at ≡ Some result }
{
    tokens[at].tok
}

/// Reports the depth of a token of this role.
fn depth(role: TokenRole, level: Level) -> u32
    requires { level.held ≤ 200 }
    ensures { result ≡ depth_at role level }
{
    match role {
        TokenRole::Opening | TokenRole::Operating => level.held + 1,
        TokenRole::Plain => level.held,
        _ => level.parted,
    }
}

/// Reports the level after a token of this role. `outer` is the stack of the levels of the open brackets around it.
fn level_after(outer: &mut Vec<Level>, role: TokenRole, level: Level) -> Result<Level, SyntaxFault>
    requires { level.held ≤ 200 }
    ensures ok { IfOk result
        (λ next. (t : OneToken) (before : ListOf OneToken) → role_of role ≡ nesting_role t → Counts before (level ∷ reverse outer.old.items) → Counts (t ∷ before) (next ∷ reverse outer.new.items)) }
    ensures err { IfErr result (λ e. e ≡ Memory) }
{
    match role {
        TokenRole::Opening => {
            outer.push(level)?;
            let held = level.held + 1;
            Ok(Level { held, parted: held })
        }
        TokenRole::Beginning => {
            outer.push(level)?;
            Ok(Level {
                held: level.parted,
                parted: level.parted,
            })
        }
        TokenRole::Closing => match outer.pop() {
            Some(around) => Ok(around),
            None => Ok(Level { held: 0, parted: 0 }),
        },
        TokenRole::Operating => Ok(Level {
            held: level.held + 1,
            parted: level.parted,
        }),
        TokenRole::Parting => Ok(Level {
            held: level.parted,
            parted: level.parted,
        }),
        TokenRole::Plain => Ok(level),
    }
}

/// Reports the number of the first token with the depth 201, or `None` if no token has it. It takes time linear in
/// the tokens. The only error is out of memory.
pub fn first_too_deep(alloc: Global, tokens: &[Token]) -> Result<Option<usize>, SyntaxFault>
    requires { length tokens.now < 2 ^ 32 }
    ensures deep { IfOk result (λ o. IfSome o (λ d. (d < length tokens.now) × IsFirstTooDeep (toks tokens.now) d)) }
    ensures shallow { result ≡ Ok None → IsShallowBelow (toks tokens.now) (length tokens.now) }
    ensures err { IfErr result (λ e. e ≡ Memory) }
{
    let mut outer = Vec::new(alloc);
    let mut level = Level { held: 0, parted: 0 };
    let mut at = 0;
    'tokens: while at < tokens.len() {
        let role = token_role(token_at(tokens, at));
        if depth(role, level) > DEEPEST {
            return Ok(Some(at));
        }
        level = level_after(&mut outer, role, level)?;
        at += 1;
    }
    Ok(None)
}
