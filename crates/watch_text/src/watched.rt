//! The whole text of a record that is followed, with its end and the verdict.
ghost use Rattle.std.specs.Prelude.{◌≡◌, ◌++◌, ◌∷◌, [], codes, Some, IfOk, OnOk, false};
ghost use Rattle.mesh_semantics.specs.Record.{labels};
ghost use Rattle.pool_syntax.specs.TreeOf.{program_of};
ghost use Rattle.pool_relation.specs.Transition.{run, start};
ghost use Rattle.pool_semantics.specs.PlainOf.{configuration_of, program_tree, is_spent};
ghost use Rattle.record_check.specs.RecordJudgement.{Judged, LeadsTo, root};
ghost use Rattle.record_check.specs.VerdictText.{verdict_text};
ghost use Rattle.run_types.specs.declared.verdicts.Verdict.TheVariants as V;
ghost use Rattle.wait_report.specs.Calls.{names_of, Rising};
ghost use Rattle.wait_report.specs.Report.{cycles_in, cycles_text};
ghost use Rattle.waiting_objects.specs.WaitsText.{waits_text};
ghost use Rattle.term_text.specs.StateText.{configuration_text};
ghost use Rattle.term_text.specs.Watched.{followed_text, line};
ghost use Rattle.watch_text.specs.WatchedRun.{IsWatched, ending, waiting_text};

use crate::follow::push_followed;
use crate::wholes::push_configuration;
use class_check::Checked;
use pool_semantics::Plain;
use record_check::{Mismatch, judge_end, root, verdict_line};
use run_types::{Line, Names, Verdict};
use std::alloc::{AllocError, Global};
use wait_report::{ObjectRow, put_each_cycle};
use waiting_objects::{push_waiting, waiting_rows};

/// The text of a record that is followed, and the verdict on the record.
#[derive(Drop)]
pub struct Watched {
    pub text: Vec<u8>,
    pub verdict: Verdict,
}

/// Appends the first line, and the configuration of the stepper. An error means out of memory.
pub fn push_start(text: &mut Vec<u8>, names: &Names, plain: &Plain<'_>) -> Result<(), AllocError>
    ensures { OnOk result (text.new.items ≡ text.old.items ++ (line (codes "watch" ∷ []) ++ configuration_text names.now (program_tree plain.now) (configuration_of plain.now))) }
{
    text.extend_from_slice(b"watch\n")?;
    push_configuration(text, names, plain.state())
}

/// Appends the lines of objects that wait, and of the cycles of calls among them. Requires rows with rising names.
fn push_rows(
    alloc: Global,
    text: &mut Vec<u8>,
    names: &Names,
    rows: &[ObjectRow],
) -> Result<(), AllocError>
    requires { Rising (names_of rows.now) }
    ensures { OnOk result (text.new.items ≡ text.old.items ++ (waits_text names.now rows.now ++ cycles_text (cycles_in rows.now))) }
{
    push_waiting(text, names, rows)?;
    put_each_cycle(alloc, text, rows)
}

/// Appends the lines of the objects that wait in the configuration of the stepper, and of the cycles of calls among
/// them.
fn push_waits(
    alloc: Global,
    text: &mut Vec<u8>,
    names: &Names,
    plain: &Plain<'_>,
) -> Result<(), AllocError>
    ensures { OnOk result (text.new.items ≡ text.old.items ++ waiting_text names.now (program_tree plain.now) (configuration_of plain.now)) }
{
    let rows = waiting_rows(alloc, plain, false)?;
    push_rows(alloc, text, names, &rows)
}

/// Appends the line of a verdict. An error means out of memory.
pub fn push_verdict(
    alloc: Global,
    text: &mut Vec<u8>,
    names: &Names,
    verdict: &Verdict,
) -> Result<(), AllocError>
    ensures { OnOk result (text.new.items ≡ text.old.items ++ verdict_text names.now verdict.now) }
{
    let line = verdict_line(alloc, verdict, names)?;
    text.extend_from_slice(&line)
}

/// Appends the end of the text after the last line, and returns the verdict. All labels were applied. An error means
/// out of memory.
pub fn push_end(
    alloc: Global,
    text: &mut Vec<u8>,
    names: &Names,
    plain: &Plain<'_>,
    lines: &[Line],
) -> Result<Verdict, AllocError>
    requires { is_spent plain.now ≡ false }
    ensures judged { IfOk result (λ v. LeadsTo (program_tree plain.now) lines.now (configuration_of plain.now) → Judged (program_tree plain.now) lines.now v) }
    ensures text { IfOk result (λ v. text.new.items ≡ text.old.items ++ (waiting_text names.now (program_tree plain.now) (configuration_of plain.now) ++ verdict_text names.now v)) }
{
    push_waits(alloc, text, names, plain)?;
    let verdict = judge_end(plain, lines);
    push_verdict(alloc, text, names, &verdict)?;
    Ok(verdict)
}

/// Appends the end of the text after an impossible line, and returns the verdict. An error means out of memory.
pub fn push_stop(
    alloc: Global,
    text: &mut Vec<u8>,
    names: &Names,
    stop: Mismatch,
) -> Result<Verdict, AllocError>
    ensures verdict { IfOk result (λ v. v ≡ V.No stop.number stop.redex) }
    ensures text { IfOk result (λ v. text.new.items ≡ text.old.items ++ verdict_text names.now v) }
{
    let verdict = Verdict::No {
        number: stop.number,
        redex: stop.redex,
    };
    push_verdict(alloc, text, names, &verdict)?;
    Ok(verdict)
}

/// Follows the lines from the start of the program, appends what they show and the end of the text, and returns the
/// verdict.
fn push_judged(
    alloc: Global,
    text: &mut Vec<u8>,
    names: &Names,
    plain: &mut Plain<'_>,
    lines: &[Line],
) -> Result<Verdict, AllocError>
    requires fresh { is_spent plain.old ≡ false }
    requires starts { start (program_tree plain.old) (root lines.now) ≡ Some (configuration_of plain.old) }
    ensures judged { IfOk result (λ v. Judged (program_tree plain.old) lines.now v) }
    ensures text { IfOk result (λ v. text.new.items ≡ text.old.items ++ (followed_text names.now (program_tree plain.old) (configuration_of plain.old) lines.now
        ++ ending names.now (program_tree plain.old) (run (program_tree plain.old) (configuration_of plain.old) (labels lines.now)) v)) }
{
    match push_followed(text, names, plain, lines) {
        Ok(None) => push_end(alloc, text, names, plain, lines),
        Ok(Some(stop)) => push_stop(alloc, text, names, stop),
        Err(_) => Err(AllocError),
    }
}

/// The text of a record that is followed from the start of the program, and the verdict on it.
/// An error means out of memory, or that an object would have more than 1,000,000 methods under way.
/// The time is proportional to the transitions that the lines show, and to the text.
pub fn watch_record(
    alloc: Global,
    program: &Checked<'_>,
    names: &Names,
    lines: &[Line],
) -> Result<Watched, AllocError>
    ensures { IfOk result (λ w. IsWatched (program_of program.now.program.now) names.now lines.now w.text.items w.verdict) }
{
    let Ok(mut plain) = Plain::make(alloc, program, root(lines)) else {
        return Err(AllocError);
    };
    let mut text = Vec::new(alloc);
    let Ok(()) = push_start(&mut text, names, &plain) else {
        return Err(AllocError);
    };
    let Ok(verdict) = push_judged(alloc, &mut text, names, &mut plain, lines) else {
        return Err(AllocError);
    };
    Ok(Watched { text, verdict })
}
