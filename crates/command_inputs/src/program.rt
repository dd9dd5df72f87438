//! Parses and checks a program: its tokens, its grammar, its classes.
ghost use Rattle.std.specs.Prelude.{◌≡◌, ◌≢◌, ◌≤◌, List, length, true, [], IfOk, MatchResult, IsOk, IsErr, Err};
ghost use Rattle.pool_syntax.specs.Terms.{ProgramTree};
ghost use Rattle.text_scan.specs.Text.{Text};
ghost use Rattle.pool_syntax.specs.TreeOf.{program_of};
ghost use Rattle.pool_grammar.specs.Grammatical.{IsGrammatical};
ghost use Rattle.pool_syntax.specs.Spelled.{is_spelled};
ghost use Rattle.pool_syntax.specs.Typing.{faults};
ghost use Rattle.command_inputs.specs.Readers.{stop_of_grammar, stop_of_tokens};
ghost use Rattle.command_inputs.specs.Programs.{IsFaultOfClasses, IsFaultOfText, IsParsed};
ghost use Rattle.command_inputs.specs.declared.fault.Fault.{Fault as AnyFault};
ghost use Rattle.command_inputs.specs.declared.fault.Input.{Input as AnyInput};

use crate::fault::{Fault, Input, InputError};
use class_check::{Checked, ClassFault, check};
use pool_lexer::tokens;
use pool_parser::{SyntaxFault, parse};
use pool_syntax::{LexFault, Program};
use run_types::Names;
use std::alloc::Global;

/// A parsed program, and the texts of its names and strings.
#[derive(Drop)]
pub struct Parsed {
    pub program: Program,
    pub names: Names,
}

/// The error of a refused program.
fn refuse(fault: Fault) -> InputError
    ensures { result ≡ InputError.Refused Input.Program fault }
{
    InputError::Refused {
        input: Input::Program,
        fault,
    }
}

/// The error of a text without tokens.
fn lex_stop(fault: LexFault) -> InputError
    ensures { result ≡ stop_of_tokens fault }
{
    match fault {
        LexFault::Memory => InputError::Memory,
        _ => refuse(Fault::Lex(fault)),
    }
}

/// The error of a text without a program.
fn syntax_stop(fault: SyntaxFault) -> InputError
    ensures { result ≡ stop_of_grammar fault }
{
    match fault {
        SyntaxFault::Memory => InputError::Memory,
        _ => refuse(Fault::Syntax(fault)),
    }
}

/// Parses the text of a program, which has at most 1,048,576 bytes. Returns `Refused` with the first fault of its
/// tokens or its grammar, or `Memory` if memory runs out.
pub fn read_program(alloc: Global, bytes: &[u8]) -> Result<Parsed, InputError>
    requires { length bytes.now ≤ 1048576 }
    ensures ok { IfOk result (λ p. IsParsed bytes.now p.names (program_of p.program)) }
    ensures grammatical { IfOk result (λ p. IsGrammatical (program_of p.program)) }
    ensures spelled { IfOk result (λ p. is_spelled p.names (program_of p.program) ≡ true) }
    ensures refused { (i : AnyInput) (f : AnyFault) → result ≡ Err (InputError.Refused i f) → (i ≡ Input.Program) × IsFaultOfText bytes.now f }
    ensures no_read { (i : AnyInput) → result ≢ Err (InputError.Unread i) }
    ensures only { (names : List Text) (p : ProgramTree) → IsParsed bytes.now names p
        → MatchResult result (λ q. (q.names ≡ names) × (program_of q.program ≡ p)) (λ r. r ≡ InputError.Memory) }
{
    let tokens = match tokens(alloc, bytes) {
        Ok(tokens) => tokens,
        Err(fault) => return Err(lex_stop(fault)),
    };
    match parse(alloc, &tokens) {
        Ok(program) => Ok(Parsed {
            program,
            names: tokens.names,
        }),
        Err(fault) => Err(syntax_stop(fault)),
    }
}

/// Checks the classes of a parsed program. Returns `Refused` with the least class fault, or `Memory` if memory runs
/// out.
pub fn judge_classes<'a>(alloc: Global, parsed: &'a Parsed) -> Result<Checked<'a>, InputError>
    requires grammatical { IsGrammatical (program_of parsed.now.program) }
    requires spelled { is_spelled parsed.now.names (program_of parsed.now.program) ≡ true }
    ensures same { IfOk result (λ c. (c.program.now ≡ parsed.now.program) × (c.names.now ≡ parsed.now.names)) }
    ensures typed { IsOk result → faults (program_of parsed.now.program) ≡ [] }
    ensures only { faults (program_of parsed.now.program) ≡ [] → IsErr result → result ≡ Err InputError.Memory }
    ensures refused { (i : AnyInput) (f : AnyFault) → result ≡ Err (InputError.Refused i f) → (i ≡ Input.Program) × IsFaultOfClasses (program_of parsed.now.program) f }
    ensures no_read { (i : AnyInput) → result ≢ Err (InputError.Unread i) }
{
    match check(alloc, &parsed.program, &parsed.names) {
        Ok(checked) => Ok(checked),
        Err(ClassFault::Memory) => Err(InputError::Memory),
        Err(fault) => Err(refuse(Fault::Class(fault))),
    }
}
