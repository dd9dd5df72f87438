//! Laws of streams. Each is the contract of a function whose body does nothing.
ghost use Rattle.std.specs.Prelude.{◌≡◌, ◌≤◌, ◌++◌, length, List, Option, Some, None, true};
ghost use Rattle.text_scan.specs.Text.{Text};
ghost use Rattle.pool_syntax.specs.Terms.{ProgramTree};
ghost use Rattle.run_record.specs.declared.fault.RecordFault.{RecordFault};
ghost use Rattle.stream_check.specs.declared.judge.Stop.{Stop};
ghost use Rattle.run_types.specs.declared.types.Line.{Line};
ghost use Rattle.run_types.specs.declared.verdicts.Verdict.{Verdict};
ghost use Rattle.run_types.specs.declared.verdicts.Verdict.TheVariants as V;
ghost use Rattle.record_check.specs.RecordJudgement.{IsRunOf};
ghost use Rattle.run_record.specs.Readable.{IsRecord};
ghost use Rattle.stream_check.specs.Filled.{IsFilled, SaysTheSame};
ghost use Rattle.stream_check.specs.FullLines.{HasFull};
ghost use Rattle.stream_check.specs.Followed.{IsFollowed};
ghost use Rattle.stream_check.specs.Stream.{has_end, stream_fault, stream_lines};

use record_check::theorems::a_record_has_one_verdict;

/// The fault of a stream stays, whatever bytes come after it.
/// Once a stream has its end line, more bytes change no line and add no fault.
pub fn a_fault_of_a_stream_stays()
    ensures fault { (s t : Text) (f : RecordFault) → stream_fault s ≡ Some f → stream_fault (s ++ t) ≡ Some f }
    ensures ended { (names : List Text) (s t : Text) → has_end (stream_lines names s) ≡ true → stream_lines names (s ++ t) ≡ stream_lines names s }
    ensures faultless { (names : List Text) (s t : Text) → has_end (stream_lines names s) ≡ true → stream_fault (s ++ t) ≡ None }
{}

/// The bytes of a stream determine what is written for them, and why the judge stops.
pub fn what_is_followed_is_one()
    ensures { (p : ProgramTree) (names : List Text) (s t u : Text) (a b : Option Stop) → IsFollowed p names s t a → IsFollowed p names s u b → (t ≡ u) × (a ≡ b) }
{
    a_record_has_one_verdict();
}

/// If the verdict on a filled record is no `yes`, no record that says the same is a run, whatever local transitions it
/// has, unless one object has 1,000,000 local transitions at one place.
pub fn no_other_filling_is_a_run()
    ensures { (p : ProgramTree) (names : List Text) (ls fs gs : List Line) (v : Verdict) → IsRecord names ls → IsFilled p ls fs v → (v ≡ V.Yes → ⊥) → SaysTheSame ls gs → IsRunOf p gs → HasFull fs }
{}

/// A filled record of at most 2,000,000 events is a record that can be read.
pub fn a_filled_record_is_a_record()
    ensures { (p : ProgramTree) (names : List Text) (ls fs : List Line) (v : Verdict) → IsRecord names ls → IsFilled p ls fs v → length fs ≤ 2000001 → IsRecord names fs }
{}
