//! The status with which a verdict on a record is written.
ghost use Rattle.std.specs.Prelude.{◌≡◌};
ghost use Rattle.command_shell.specs.Verdicts.{status_of_verdict};

use crate::status::Status;
use run_types::Verdict;

/// The status with which a verdict is written: `DoneFaulted` if the record is not a run.
pub fn status_of_verdict(verdict: &Verdict) -> Status
    ensures { result ≡ status_of_verdict verdict.now }
{
    match verdict {
        Verdict::Yes => Status::Done,
        Verdict::No { .. } | Verdict::Moving { .. } => Status::DoneFaulted,
    }
}
