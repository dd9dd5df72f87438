//! The parser of a list of tokens.
ghost use Rattle.std.specs.Prelude.{◌≡◌, ℕ, ◌+◌, ◌^◌, ◌<◌, ◌≤◌, ◌⊎◌, length, take, Ok, Err, IfOk, IsTrue, MatchResult};
ghost use Rattle.pool_lexer.specs.TokenLists.{EndsInEnd};
ghost use Rattle.pool_syntax.specs.Terms.{ProgramTree};
ghost use Rattle.pool_grammar.specs.Rules.{program as program_phrase};
ghost use Rattle.pool_grammar.specs.Grammar.{rule};
ghost use Rattle.pool_grammar.specs.Derives.{Begins, IsFirstUnexpected};
ghost use Rattle.pool_grammar.specs.Nesting.{IsFirstTooDeep};
ghost use Rattle.pool_syntax.specs.TreeOf.{program_of};
ghost use Rattle.pool_syntax.specs.Tokens.{toks};
ghost use Rattle.pool_grammar.specs.Programs.{HasProgram, IsShallowBelow};
ghost use Rattle.pool_syntax.specs.Spelled.{AreSpelled, is_spelled};
ghost use Rattle.expression_parser.specs.declared.fault.SyntaxFault.TheVariants.{Memory};
ghost use Rattle.pool_parser.specs.Declarations.{ParsesProgram};
ghost use Rattle.expression_parser.specs.Nested.{IsNestedBelow};

use crate::declarations::program;
use crate::nesting::first_too_deep;
use expression_parser::{Source, SyntaxFault};
use pool_lexer::Tokens;
use pool_syntax::{Program, Token};
use std::alloc::Global;

/// Parses the program that the first `end` tokens form, followed by `End`.
fn program_of_front(alloc: Global, tokens: &[Token], end: usize) -> Result<Program, SyntaxFault>
    requires within { end + 1 ≤ length tokens.now }
    requires small { length tokens.now < 2 ^ 32 }
    requires ended { EndsInEnd (toks tokens.now) }
    requires nested { IsNestedBelow (toks tokens.now) end }
    ensures { ParsesProgram (take end tokens.now) result }
{
    program(
        alloc,
        Source {
            tokens: &tokens[..end],
        },
    )
}

/// Reports the fault, or that the token `deep` is too deep if the fault comes after it.
fn unless_behind(fault: SyntaxFault, deep: usize) -> SyntaxFault
    requires { deep < 2 ^ 32 }
    ensures unexpected { (t : ℕ) → result ≡ SyntaxFault.Unexpected t → (fault ≡ SyntaxFault.Unexpected t) × (t ≤ deep) }
    ensures too_deep { (t : ℕ) → result ≡ SyntaxFault.TooDeep t → (fault ≡ SyntaxFault.TooDeep t) ⊎ ((t ≡ deep) × ((u : ℕ) × (fault ≡ SyntaxFault.Unexpected u) × (deep < u))) }
{
    match fault {
        SyntaxFault::Unexpected { token } => {
            if token as usize <= deep {
                fault
            } else {
                SyntaxFault::TooDeep { token: deep as u32 }
            }
        }
        SyntaxFault::TooDeep { .. } | SyntaxFault::Memory => fault,
    }
}

/// Reports the fault of tokens of which `deep` is the first too deep one. It does not look at the tokens after that
/// one, so the depth of calls is bounded by the depth of tokens.
fn fault_up_to(alloc: Global, tokens: &[Token], deep: usize) -> SyntaxFault
    requires within { deep < length tokens.now }
    requires first { IsFirstTooDeep (toks tokens.now) deep }
    requires small { length tokens.now < 2 ^ 32 }
    requires ended { EndsInEnd (toks tokens.now) }
    ensures unexpected { (t : ℕ) → result ≡ SyntaxFault.Unexpected t → IsFirstUnexpected (toks tokens.now) t × (t ≤ deep) }
    ensures too_deep { (t : ℕ) → result ≡ SyntaxFault.TooDeep t → (t ≡ deep) × Begins (toks tokens.now) program_phrase (rule program_phrase) 0 (deep + 1) }
{
    let end = (deep + 1).min(tokens.len() - 1);
    match program_of_front(alloc, tokens, end) {
        Ok(_) => SyntaxFault::TooDeep { token: deep as u32 },
        Err(fault) => unless_behind(fault, deep),
    }
}

/// Parses the program that the tokens form.
fn parse_tokens(alloc: Global, tokens: &[Token]) -> Result<Program, SyntaxFault>
    requires small { length tokens.now < 2 ^ 32 }
    requires ended { EndsInEnd (toks tokens.now) }
    ensures ok { IfOk result (λ p. HasProgram (toks tokens.now) (program_of p)) }
    ensures unexpected { (t : ℕ) → result ≡ Err (SyntaxFault.Unexpected t) → IsFirstUnexpected (toks tokens.now) t × IsShallowBelow (toks tokens.now) t }
    ensures too_deep { (t : ℕ) → result ≡ Err (SyntaxFault.TooDeep t) → IsFirstTooDeep (toks tokens.now) t × Begins (toks tokens.now) program_phrase (rule program_phrase) 0 (t + 1) }
    ensures only { (p : ProgramTree) → HasProgram (toks tokens.now) p → MatchResult result (λ q. program_of q ≡ p) (λ f. f ≡ Memory) }
{
    match first_too_deep(alloc, tokens)? {
        None => program_of_front(alloc, tokens, tokens.len() - 1),
        Some(deep) => Err(fault_up_to(alloc, tokens, deep)),
    }
}

/// Parses the program that a text's tokens form. Reports the first unexpected token, or the first token whose depth
/// exceeds 200. `Memory` comes only if memory runs out. It takes time linear in the tokens. The depths are checked
/// first, so calls nest no deeper than the tokens.
pub fn parse(alloc: Global, tokens: &Tokens) -> Result<Program, SyntaxFault>
    requires ended { EndsInEnd (toks tokens.now.list) }
    requires size { length tokens.now.list ≤ 67108865 }

    // The result is the program of the tokens, and no token is too deep.
    ensures ok { IfOk result (λ p. HasProgram (toks tokens.now.list) (program_of p)) }

    // The tokens before an unexpected one begin a program, those up to it do not, and none before it is too deep.
    ensures unexpected { (t : ℕ) → result ≡ Err (SyntaxFault.Unexpected t) → IsFirstUnexpected (toks tokens.now.list) t × IsShallowBelow (toks tokens.now.list) t }

    // A token that is too deep is the first such token, and the tokens up to it begin a program.
    ensures too_deep { (t : ℕ) → result ≡ Err (SyntaxFault.TooDeep t) → IsFirstTooDeep (toks tokens.now.list) t × Begins (toks tokens.now.list) program_phrase (rule program_phrase) 0 (t + 1) }

    // Unless memory runs out, each of the two faults is reported at its token. The first: a token is unexpected, and
    // none before it is too deep. The second: a token is too deep, and the tokens up to it begin a program.
    ensures unexpected_there { (t : ℕ) → t < length (toks tokens.now.list) → IsFirstUnexpected (toks tokens.now.list) t → IsShallowBelow (toks tokens.now.list) t
        → (result ≡ Err (SyntaxFault.Unexpected t)) ⊎ (result ≡ Err Memory) }
    ensures too_deep_there { (t : ℕ) → IsFirstTooDeep (toks tokens.now.list) t → Begins (toks tokens.now.list) program_phrase (rule program_phrase) 0 (t + 1)
        → (result ≡ Err (SyntaxFault.TooDeep t)) ⊎ (result ≡ Err Memory) }

    // Tokens that are a program are rejected only if memory runs out, and they are no other program.
    ensures only { (p : ProgramTree) → HasProgram (toks tokens.now.list) p → MatchResult result (λ q. program_of q ≡ p) (λ f. f ≡ Memory) }

    // If the names, strings and integers of the tokens can be written, those of the program can be written.
    ensures spelled { AreSpelled tokens.now.names (toks tokens.now.list) → IfOk result (λ p. IsTrue (is_spelled tokens.now.names (program_of p))) }
{
    parse_tokens(alloc, tokens.list.items())
}
