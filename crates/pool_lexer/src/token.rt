//! The token of a piece of a text.
ghost use Rattle.std.specs.Prelude.{ℕ, ◌^◌, ◌<◌, List, Some, length};
ghost use Rattle.pool_lexer.specs.Pieces.{IsKind};
ghost use Rattle.pool_lexer.specs.Reading.{TellsToken};
ghost use Rattle.pool_lexer.specs.declared.piece.Kind.TheVariants.{Word, Integer, Text as Quoted};

use crate::piece::Kind;
use pool_syntax::{LexFault, Tok};
use run_types::Names;
use text_scan::{Decimal, decimal, keyword};

/// The largest number of bytes of a name.
const NAME_LIMIT: usize = 64;

/// The largest number of bytes of a string, without its quotes.
const STRING_LIMIT: usize = 256;

/// Reports the token of a piece that begins at the byte `at`, and adds the text of a name or a string to the table. A
/// skipped piece has no token. Errors: `TooLong`, `IntegerTooLarge`, and `Memory` if memory runs out.
pub fn token(names: &mut Names, text: &[u8], kind: Kind, at: u32) -> Result<Option<Tok>, LexFault>
    requires kind { IsKind kind text.now }
    requires room { length names.old < 2 ^ 32 }
    ensures { TellsToken (λ t. t) at text.now names.old names.new result }
{
    match kind {
        Kind::Skipped => Ok(None),
        Kind::Word => Ok(Some(word(names, text, at)?)),
        Kind::Integer => Ok(Some(integer(text, at)?)),
        Kind::Text => Ok(Some(string(names, text, at)?)),
        Kind::Sign(sign) => Ok(Some(Tok::Sign(sign))),
    }
}

/// Reports the keyword or the name. A name of more than 64 bytes is `TooLong`.
fn word(names: &mut Names, text: &[u8], at: u32) -> Result<Tok, LexFault>
    requires kind { IsKind Word text.now }
    requires room { length names.old < 2 ^ 32 }
    ensures { TellsToken (λ t. Some t) at text.now names.old names.new result }
{
    if text.len() > NAME_LIMIT {
        return Err(LexFault::TooLong { at });
    }
    match keyword(text) {
        Some(keyword) => Ok(Tok::Word(keyword)),
        None => match names.add(text) {
            Ok(name) => Ok(Tok::Name(name)),
            Err(_) => Err(LexFault::Memory),
        },
    }
}

/// Reports the integer. From 2^63 on it is `IntegerTooLarge`.
fn integer(text: &[u8], at: u32) -> Result<Tok, LexFault>
    requires { IsKind Integer text.now }
    ensures { (names : List (List ℕ)) → TellsToken (λ t. Some t) at text.now names names result }
{
    match decimal(text) {
        Decimal::Value(value) => Ok(Tok::Int(value as i64)),
        Decimal::TooLarge => Err(LexFault::IntegerTooLarge { at }),
        Decimal::NotDigits => unreachable!(),
    }
}

/// Reports the string. With more than 256 bytes between its quotes it is `TooLong`.
fn string(names: &mut Names, text: &[u8], at: u32) -> Result<Tok, LexFault>
    requires kind { IsKind Quoted text.now }
    requires room { length names.old < 2 ^ 32 }
    ensures { TellsToken (λ t. Some t) at text.now names.old names.new result }
{
    if text.len() > STRING_LIMIT + 2 {
        return Err(LexFault::TooLong { at });
    }
    match names.add(&text[1..text.len() - 1]) {
        Ok(name) => Ok(Tok::Str(name)),
        Err(_) => Err(LexFault::Memory),
    }
}
