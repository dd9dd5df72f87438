//! Theorems about reading a program: it is accepted, rejected, or not read, and only one of these holds.
ghost use Rattle.std.specs.Prelude.{◌≡◌, ◌≢◌, ◌-◌, ◌^◌, ◌<◌, Some, Result, Err};
ghost use Rattle.text_scan.specs.Text.{Text};
ghost use Rattle.command_inputs.specs.declared.fault.Fault.{Fault};
ghost use Rattle.command_inputs.specs.declared.fault.Input.{Input};
ghost use Rattle.command_inputs.specs.declared.fault.Input.TheVariants as I;
ghost use Rattle.command_inputs.specs.declared.fault.InputError.{InputError};
ghost use Rattle.command_inputs.specs.declared.fault.InputError.TheVariants as T;
ghost use Rattle.pool_outside.specs.Reading.{Reading, Told};
ghost use Rattle.command_inputs.specs.Inputs.{IsReadAs};
ghost use Rattle.command_inputs.specs.Readers.{IsTypedProgramOf, Reads};
ghost use Rattle.command_inputs.specs.Programs.{HasTypedFault, IsTypedProgram};
ghost use Rattle.command_inputs.specs.declared.program.Parsed.{Parsed};
ghost use Rattle.adequacy.specs.Judgement.{IsJudged, Judgement, AnswerOf};

use pool_parser::theorems::{a_text_has_one_program, front_begins};

/// A text has at most one fault as a program, and an accepted text has none.
pub fn a_text_has_one_fault()
    ensures one { (s : Text) (f g : Fault) → HasTypedFault s f → HasTypedFault s g → f ≡ g }
    ensures none { (s : Text) (f : Fault) → IsTypedProgram s → ¬ (HasTypedFault s f) }
{
    front_begins();
    a_text_has_one_program();
}

/// At most one judgement holds of a program whose text is known,
/// and an input with a known text is read as that text only.
/// The judgements: the text was read and accepted, the text was rejected for a fault, or a read failed.
/// The count of failed reads must be below 2^64 - 1, because it stays at that value.
pub fn an_input_has_one_judgement()
    ensures text { (told : Told) (input : Input) (name t r s : Text) → told name ≡ Some t → IsReadAs told input name r → IsReadAs told input name s → r ≡ s }
    ensures judgement { (k : Reading) (name t : Text) (i j : Judgement) → k.told name ≡ Some t → k.faults < 2 ^ 64 - 1 → IsJudged k name i → IsJudged k name j → i ≡ j }
{
    a_text_has_one_fault();
}

/// The answer after reading a program, unless it is out of memory, corresponds to a judgement that holds.
/// By `an_input_has_one_judgement` it is the only one.
pub fn an_answer_tells_the_judgement()
    ensures { (k : Reading) (name : Text) (answer : Result Parsed InputError) → Reads k I.Program name IsTypedProgram HasTypedFault IsTypedProgramOf answer → answer ≢ Err T.Memory
        → (j : Judgement) × IsJudged k name j × AnswerOf j answer }
{}
