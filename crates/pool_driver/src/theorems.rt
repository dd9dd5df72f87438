//! Theorems about the definitions in the contract of the top-level function. Each is the contract of a function.
ghost use Rattle.std.specs.Prelude.{◌≡◌, ◌≤◌, true, length, [], ◌∷◌, codes, List as ListOf};
ghost use Rattle.pool_syntax.specs.declared.token.Token.{Token as OneToken};
ghost use Rattle.pool_grammar.specs.Programs.{IsParsed, IsShallowBelow};
ghost use Rattle.pool_grammar.specs.Grammatical.{IsGrammatical};
ghost use Rattle.pool_syntax.specs.Spelled.{is_spelled};
ghost use Rattle.pool_syntax.specs.Terms.{ProgramTree};
ghost use Rattle.text_scan.specs.Text.{Text};
ghost use Rattle.pool_syntax.specs.Tokens.{toks};
ghost use Rattle.command_line.specs.declared.command.Ask.TheVariants.{File as FileAsked};
ghost use Rattle.command_line.specs.declared.command.Show.TheVariants.{Record as RecordShown};
ghost use Rattle.command_inputs.specs.declared.fault.Fault.{Fault as AnyFault};
ghost use Rattle.command_inputs.specs.declared.fault.Input.{Input as AnyInput};
ghost use Rattle.command_inputs.specs.declared.fault.Input.TheVariants.{Placement as PlacementRead, Program as ProgramRead, Record as RecordRead, Schedule as ScheduleRead, Unit as UnitRead};
ghost use Rattle.command_inputs.specs.Inputs.{limit_of};
ghost use Rattle.command_shell.specs.declared.status.Status.{Status as AnyStatus};
ghost use Rattle.command_shell.specs.declared.status.Status.TheVariants.{Done};
ghost use Rattle.pool_driver.specs.FirstFault.{StopsFirst};
ghost use Rattle.pool_driver.specs.Inputs.{IsAccepted};
ghost use Rattle.pool_driver.specs.Outputs.{IsLoadOf, IsRunOf, IsTextFor, IsVerdictOn};
ghost use Rattle.pool_printer.specs.Canonical.{canonical};
ghost use Rattle.pool_printer.specs.SameProgram.{IsSameProgram};

use pool_parser::theorems::a_text_has_one_program;
use record_check::theorems::{a_run_is_judged_yes, shown_runs_are_runs};

/// A canonical text whose tokens are nested at most 200 deep is parsed to the same program.
/// Only positions and the numbers of names may differ.
pub fn canonical_text_is_read_back()
    ensures { (names : ListOf Text) (p : ProgramTree) → is_spelled names p ≡ true → IsGrammatical p
        → (other : ListOf Text) × (ts : ListOf OneToken) × (q : ProgramTree) × IsSameProgram names p other ts q
        × (IsShallowBelow (toks ts) (length (toks ts)) → IsParsed (canonical names p) other q) }
{}

/// `load` accepts the bytes that `build` writes, and then writes the same text with the same status as `record` does.
/// It accepts the same placements and schedules as `record` does for the program, with or without wires.
pub fn what_is_built_is_loaded_as_recorded()
    ensures accepted { (source bytes : Text) → IsTextFor FileAsked source bytes → IsAccepted [] UnitRead bytes }
    ensures placements { (source bytes place : Text) → IsTextFor FileAsked source bytes
        → (IsAccepted (source ∷ []) PlacementRead place → IsAccepted (bytes ∷ []) PlacementRead place)
        × (IsAccepted (bytes ∷ []) PlacementRead place → IsAccepted (source ∷ []) PlacementRead place) }
    ensures schedules { (source bytes place plan : Text) → IsTextFor FileAsked source bytes
        → (IsAccepted (source ∷ place ∷ []) ScheduleRead plan → IsAccepted (bytes ∷ place ∷ []) ScheduleRead plan)
        × (IsAccepted (bytes ∷ place ∷ []) ScheduleRead plan → IsAccepted (source ∷ place ∷ []) ScheduleRead plan) }
    ensures loaded { (source bytes place plan text : Text) (status : AnyStatus) → IsTextFor FileAsked source bytes → IsRunOf RecordShown source place plan text status
        → IsLoadOf bytes place plan text status }
    ensures recorded { (source bytes place plan text : Text) (status : AnyStatus) → IsTextFor FileAsked source bytes → IsLoadOf bytes place plan text status
        → IsRunOf RecordShown source place plan text status }
{
    a_text_has_one_program();
}

/// `load` of the bytes that `build` writes stops at the same input, for the same fault, as `record` of the program
/// does. The program and the bytes must be within their limits, so that neither is `TooLong`. Then the input is the
/// placement or the schedule, and there is at most one such input and fault.
pub fn what_is_built_is_refused_as_recorded()
    ensures refused { (source bytes place plan : Text) (input : AnyInput) (f : AnyFault) → IsTextFor FileAsked source bytes
        → length source ≤ limit_of ProgramRead → length bytes ≤ limit_of UnitRead
        → StopsFirst [] (ProgramRead ∷ PlacementRead ∷ ScheduleRead ∷ []) (source ∷ place ∷ plan ∷ []) input f
        → StopsFirst [] (UnitRead ∷ PlacementRead ∷ ScheduleRead ∷ []) (bytes ∷ place ∷ plan ∷ []) input f }
    ensures only { (source bytes place plan : Text) (input : AnyInput) (f : AnyFault) → IsTextFor FileAsked source bytes
        → length source ≤ limit_of ProgramRead → length bytes ≤ limit_of UnitRead
        → StopsFirst [] (UnitRead ∷ PlacementRead ∷ ScheduleRead ∷ []) (bytes ∷ place ∷ plan ∷ []) input f
        → StopsFirst [] (ProgramRead ∷ PlacementRead ∷ ScheduleRead ∷ []) (source ∷ place ∷ plan ∷ []) input f }
    ensures one { (source bytes place plan : Text) (i j : AnyInput) (f g : AnyFault) → IsTextFor FileAsked source bytes → length source ≤ limit_of ProgramRead
        → StopsFirst [] (ProgramRead ∷ PlacementRead ∷ ScheduleRead ∷ []) (source ∷ place ∷ plan ∷ []) i f
        → StopsFirst [] (ProgramRead ∷ PlacementRead ∷ ScheduleRead ∷ []) (source ∷ place ∷ plan ∷ []) j g → (i ≡ j) × (f ≡ g) }
{
    a_text_has_one_program();
}

/// The text that `record` writes is an accepted record, and the only verdict on it and the same program is `yes`, with
/// status 0. (A text of more than 64 MiB is rejected before it is read as a record.)
pub fn what_is_recorded_is_judged_yes()
    ensures accepted { (source place plan text : Text) (status : AnyStatus) → IsRunOf RecordShown source place plan text status → IsAccepted (source ∷ []) RecordRead text }
    ensures yes { (source place plan text line : Text) (status end : AnyStatus) → IsRunOf RecordShown source place plan text status → IsVerdictOn source text line end
        → (line ≡ codes "yes\n") × (end ≡ Done) }
{
    a_text_has_one_program();
    shown_runs_are_runs();
    a_run_is_judged_yes();
}
