//! Compiles a program that was read, and makes its object code file.
ghost use Rattle.std.specs.Prelude.{◌≡◌, ◌≢◌, true, [], IfOk, IsOk, IsErr, Err};
ghost use Rattle.pool_syntax.specs.TreeOf.{program_of};
ghost use Rattle.pool_grammar.specs.Grammatical.{IsGrammatical};
ghost use Rattle.pool_syntax.specs.Spelled.{is_spelled};
ghost use Rattle.pool_syntax.specs.Typing.{faults};
ghost use Rattle.code_semantics.specs.Proper.{IsProper};
ghost use Rattle.code_semantics.specs.Shaped.{IsListOf, IsShaped, IsShort, IsShortList};
ghost use Rattle.pool_driver.specs.Inputs.{unit_of};
ghost use Rattle.command_inputs.specs.Programs.{IsFaultOfClasses};
ghost use Rattle.code_typing.specs.Verdict.{Good, verdict};
ghost use Rattle.compiler_correctness.specs.DeclaredKinds.{file_of};
ghost use Rattle.command_inputs.specs.declared.fault.Fault.{Fault as AnyFault};
ghost use Rattle.command_inputs.specs.declared.fault.Input.{Input as AnyInput};

use code_semantics::{Unit, UnitFile};
use code_verify::file_of;
use command_inputs::{Input, InputError, Parsed, judge_classes};
use pool_compile::compile;
use std::alloc::Global;

/// Checks the classes of a program and compiles it. The code has a copy of the names.
/// Reports the first class fault, or out of memory.
pub fn code_of(alloc: Global, parsed: &Parsed) -> Result<Unit, InputError>
    requires grammatical { IsGrammatical (program_of parsed.now.program) }
    requires spelled { is_spelled parsed.now.names (program_of parsed.now.program) ≡ true }
    ensures code { IfOk result (λ u. u ≡ unit_of parsed.now.names (program_of parsed.now.program)) }
    ensures proper { IfOk result (λ u. IsProper u) }
    ensures typed { IsOk result → faults (program_of parsed.now.program) ≡ [] }
    ensures only { faults (program_of parsed.now.program) ≡ [] → IsErr result → result ≡ Err InputError.Memory }
    ensures refused { (i : AnyInput) (f : AnyFault) → result ≡ Err (InputError.Refused i f) → (i ≡ Input.Program) × IsFaultOfClasses (program_of parsed.now.program) f }
    ensures no_read { (i : AnyInput) → result ≢ Err (InputError.Unread i) }
{
    let checked = match judge_classes(alloc, parsed) {
        Ok(checked) => checked,
        Err(stop) => return Err(stop),
    };
    match compile(alloc, &checked) {
        Ok(unit) => Ok(unit),
        Err(_) => Err(InputError::Memory),
    }
}

/// Checks the classes of a program, and makes its object code file with a copy of the names.
/// Reports the first class fault, or out of memory.
pub fn file_of_parsed(alloc: Global, parsed: &Parsed) -> Result<UnitFile, InputError>
    requires grammatical { IsGrammatical (program_of parsed.now.program) }
    requires spelled { is_spelled parsed.now.names (program_of parsed.now.program) ≡ true }
    requires few { IsListOf IsShortList parsed.now.names }
    ensures file { IfOk result (λ f. f ≡ file_of parsed.now.names (program_of parsed.now.program)) }
    ensures shaped { IfOk result (λ f. IsShaped f) }
    ensures short { IfOk result (λ f. IsShort f) }
    ensures good { IfOk result (λ f. verdict f ≡ Good) }
    ensures typed { IsOk result → faults (program_of parsed.now.program) ≡ [] }
    ensures only { faults (program_of parsed.now.program) ≡ [] → IsErr result → result ≡ Err InputError.Memory }
    ensures refused { (i : AnyInput) (f : AnyFault) → result ≡ Err (InputError.Refused i f) → (i ≡ Input.Program) × IsFaultOfClasses (program_of parsed.now.program) f }
    ensures no_read { (i : AnyInput) → result ≢ Err (InputError.Unread i) }
{
    let checked = match judge_classes(alloc, parsed) {
        Ok(checked) => checked,
        Err(stop) => return Err(stop),
    };
    match file_of(alloc, &checked) {
        Ok(file) => Ok(file),
        Err(_) => Err(InputError::Memory),
    }
}
