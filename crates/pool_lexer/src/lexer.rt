//! The lexer: the tokens of a whole text, or its first fault.
ghost use Rattle.std.specs.Prelude.{◌≡◌, ◌≢◌, ℕ, ◌+◌, ◌^◌, ◌<◌, ◌≤◌, ◌⊎◌, List as ItemList, [], ◌∷◌, ◌++◌, Err, IfOk, IfErr, OnOk, MatchResult, All, length};
ghost use Rattle.pool_syntax.specs.Tokens.{toks, HasTokens, IsFirstFault};
ghost use Rattle.pool_syntax.specs.Spelled.{AreSpelled};
ghost use Rattle.pool_lexer.specs.TokenLists.{EndsInEnd, IsPlaced};
ghost use Rattle.pool_lexer.specs.Reading.{TellsStep};

use crate::piece::piece_at;
use crate::table::Tokens;
use crate::token::token;
use pool_syntax::{LexFault, Tok, Token};
use run_types::{List, Names};
use std::alloc::Global;

/// Reports the tokens of a text of at most 67,108,864 bytes, or its first lexical fault. The texts of names and
/// strings are numbered in the order in which they first occur. `Memory` comes only if memory runs out.
pub fn tokens(alloc: Global, bytes: &[u8]) -> Result<Tokens, LexFault>
    requires { length bytes.now ≤ 67108864 }
    ensures ok { IfOk result (λ t. HasTokens bytes.now t.names t.list) }
    ensures fault { (f : LexFault) → result ≡ Err f → f ≢ LexFault.Memory → IsFirstFault bytes.now f }

    // A text that has tokens is rejected only if memory runs out.
    ensures only { (names : ItemList (ItemList ℕ)) (ts : ItemList Token) → HasTokens bytes.now names ts
        → MatchResult result (λ t. (t.names ≡ names) × (t.list ≡ ts)) (λ f. f ≡ LexFault.Memory) }

    // A text that has a first fault is rejected with this fault, unless memory runs out.
    ensures first { (f : LexFault) → IsFirstFault bytes.now f → (result ≡ Err f) ⊎ (result ≡ Err LexFault.Memory) }

    // The last token is `End` and no other one is. Each number of a name or string is an index of the table.
    ensures ended { IfOk result (λ t. EndsInEnd (toks t.list)) }
    ensures placed { IfOk result (λ t. All (IsPlaced (length t.names)) (toks t.list)) }

    // Each name, string and integer can be written in a program.
    ensures spelled { IfOk result (λ t. AreSpelled t.names (toks t.list)) }
    ensures count { IfOk result (λ t. length t.list ≤ length bytes.now + 1) }
{
    let mut tokens = Tokens {
        names: Names::make(alloc),
        list: List::make(alloc),
    };
    let mut at = 0;
    while at < bytes.len() {
        at = read_piece(&mut tokens, bytes, at)?;
    }
    push(&mut tokens, Tok::End, at)?;
    Ok(tokens)
}

/// Reads the piece that begins at the byte `at`, and reports where it ends.
fn read_piece(tokens: &mut Tokens, bytes: &[u8], at: usize) -> Result<usize, LexFault>
    requires within { at < length bytes.now }
    requires small { length bytes.now < 2 ^ 32 }
    requires room { length tokens.old.names < 2 ^ 32 }
    ensures { TellsStep bytes.now at tokens.old tokens.new result }
{
    let piece = piece_at(bytes, at)?;
    let text = &bytes[at..piece.end];
    if let Some(tok) = token(&mut tokens.names, text, piece.kind, at as u32)? {
        push(tokens, tok, at)?;
    }
    Ok(piece.end)
}

/// Appends a token with its position.
fn push(tokens: &mut Tokens, tok: Tok, at: usize) -> Result<(), LexFault>
    requires { at < 2 ^ 32 }
    ensures names { tokens.new.names ≡ tokens.old.names }
    ensures list { OnOk result (tokens.new.list ≡ tokens.old.list ++ record { tok = tok; at = at } ∷ []) }
    ensures memory { IfErr result (λ f. f ≡ LexFault.Memory) }
{
    let token = Token { tok, at: at as u32 };
    match tokens.list.push(token) {
        Ok(()) => Ok(()),
        Err(_) => Err(LexFault::Memory),
    }
}
