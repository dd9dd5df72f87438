//! Decides whether a record is a run of its program.
ghost use Rattle.std.specs.Prelude.{◌≡◌, IfOk, false};
ghost use Rattle.pool_syntax.specs.TreeOf.{program_of};
ghost use Rattle.pool_semantics.specs.PlainOf.{configuration_of, program_tree, is_spent};
ghost use Rattle.record_check.specs.RecordJudgement.{LeadsTo, Judged};

use crate::labels::{Followed, is_quiet, judge_labels};
use class_check::Checked;
use pool_semantics::Plain;
use run_types::{Line, List, Verdict};
use std::alloc::{AllocError, Global};

/// The verdict on a record with only possible labels. `plain` is the configuration after the last label.
pub fn judge_end(plain: &Plain<'_>, lines: &[Line]) -> Verdict
    requires { is_spent plain.now ≡ false }
    ensures { LeadsTo (program_tree plain.now) lines.now (configuration_of plain.now) → Judged (program_tree plain.now) lines.now result }
{
    if !is_quiet(lines) {
        return Verdict::Yes;
    }
    match plain.moving() {
        None => Verdict::Yes,
        Some(object) => Verdict::Moving { object },
    }
}

/// Decides whether a record is a run of the program. It checks the labels and the `quiet` end, but no delays.
/// An error means out of memory, or that an object would have more than 1,000,000 methods under way.
/// The time is proportional to the transitions that the lines show. One line shows fewer than 2^32 transitions.
pub fn check_record(
    alloc: Global,
    program: &Checked<'_>,
    lines: &List<Line>,
) -> Result<Verdict, AllocError>
    ensures { IfOk result (λ v. Judged (program_of program.now.program.now) lines.now v) }
{
    match judge_labels(alloc, program, lines.items())? {
        Followed::Stopped(stop) => Ok(Verdict::No {
            number: stop.number,
            redex: stop.redex,
        }),
        Followed::Led(plain) => Ok(judge_end(&plain, lines.items())),
    }
}
