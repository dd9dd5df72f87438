//! Some lines of a record, shown from the configuration before them.
ghost use Rattle.std.specs.Prelude.{◌≡◌, ◌≤◌, ◌++◌, Some, IfOk, IfSome, IfNone, false};
ghost use Rattle.mesh_semantics.specs.Record.{labels};
ghost use Rattle.pool_syntax.specs.TreeOf.{program_of};
ghost use Rattle.pool_relation.specs.Transition.{run, start};
ghost use Rattle.pool_semantics.specs.PlainOf.{configuration_of, program_tree, is_spent};
ghost use Rattle.record_check.specs.RecordJudgement.{Judged, root};
ghost use Rattle.record_check.specs.Verdicts.{StopsIn};
ghost use Rattle.term_text.specs.Watched.{watched_text};
ghost use Rattle.watch_text.specs.WatchedRun.{IsWatchedPart, ending, lines_before, lines_between, part_text};

use crate::follow::push_followed;
use crate::watched::{Watched, push_end, push_start, push_stop};
use class_check::Checked;
use pool_semantics::Plain;
use record_check::{Mismatch, follow, root};
use run_types::{Line, Names, Verdict};
use std::alloc::{AllocError, Global};

/// Appends the first line, the configuration of the stepper, and the shown lines with what they changed. Then it
/// applies the labels of the lines behind. Returns the first impossible line, or None if all labels were applied. An
/// error means out of memory.
fn push_from(
    text: &mut Vec<u8>,
    names: &Names,
    plain: &mut Plain<'_>,
    shown: &[Line],
    behind: &[Line],
) -> Result<Option<Mismatch>, AllocError>
    ensures program { program_tree plain.new ≡ program_tree plain.old }
    ensures going_on { IfOk result (λ _. is_spent plain.old ≡ false → is_spent plain.new ≡ false) }
    ensures leads { IfOk result (λ r. IfNone r (run (program_tree plain.old) (configuration_of plain.old) (labels (shown.now ++ behind.now)) ≡ Some (configuration_of plain.new))) }
    ensures stops { IfOk result (λ r. IfSome r (λ s. StopsIn (program_tree plain.old) (configuration_of plain.old) (shown.now ++ behind.now) s.number (configuration_of plain.new) s.redex)) }
    ensures text { IfOk result (λ _. text.new.items ≡ text.old.items ++ watched_text names.now (program_tree plain.old) (configuration_of plain.old) shown.now) }
{
    push_start(text, names, plain)?;
    match push_followed(text, names, plain, shown) {
        Ok(None) => follow(plain, behind),
        Ok(Some(stop)) => Ok(Some(stop)),
        Err(_) => Err(AllocError),
    }
}

/// Applies the labels of the lines before, and appends the text of the shown lines. Then it applies the labels of the
/// lines behind. Returns the first impossible line, or None if all labels were applied. An error means out of memory.
fn push_part(
    text: &mut Vec<u8>,
    names: &Names,
    plain: &mut Plain<'_>,
    before: &[Line],
    shown: &[Line],
    behind: &[Line],
) -> Result<Option<Mismatch>, AllocError>
    ensures program { program_tree plain.new ≡ program_tree plain.old }
    ensures going_on { IfOk result (λ _. is_spent plain.old ≡ false → is_spent plain.new ≡ false) }
    ensures leads { IfOk result (λ r. IfNone r (run (program_tree plain.old) (configuration_of plain.old) (labels (before.now ++ (shown.now ++ behind.now))) ≡ Some (configuration_of plain.new))) }
    ensures stops { IfOk result (λ r. IfSome r (λ s. StopsIn (program_tree plain.old) (configuration_of plain.old) (before.now ++ (shown.now ++ behind.now)) s.number (configuration_of plain.new) s.redex)) }
    ensures text { IfOk result (λ _. text.new.items ≡ text.old.items ++ part_text names.now (program_tree plain.old) (run (program_tree plain.old) (configuration_of plain.old) (labels before.now)) shown.now) }
{
    match follow(plain, before) {
        Ok(None) => push_from(text, names, plain, shown, behind),
        Ok(Some(stop)) => {
            text.extend_from_slice(b"watch\n")?;
            Ok(Some(stop))
        }
        Err(_) => Err(AllocError),
    }
}

/// The lines before line `first`, those from there to line `last`, and those behind.
fn cut(lines: &[Line], first: usize, last: usize) -> (&[Line], &[Line], &[Line])
    requires counted { 1 ≤ first }
    requires rising { first ≤ last }
    ensures before { result.0.now ≡ lines_before first lines.now }
    ensures between { result.1.now ≡ lines_between first last lines.now }
    ensures whole { result.0.now ++ (result.1.now ++ result.2.now) ≡ lines.now }
{
    let (front, behind) = lines.split_at(last.min(lines.len()));
    let (before, between) = front.split_at((first - 1).min(front.len()));
    (before, between, behind)
}

/// Follows the lines from the start of the program. Appends the text of those from line `first` to line `last`, and the
/// end. Returns the verdict on all lines.
fn push_judged_part(
    alloc: Global,
    text: &mut Vec<u8>,
    names: &Names,
    plain: &mut Plain<'_>,
    lines: &[Line],
    first: usize,
    last: usize,
) -> Result<Verdict, AllocError>
    requires counted { 1 ≤ first }
    requires rising { first ≤ last }
    requires fresh { is_spent plain.old ≡ false }
    requires starts { start (program_tree plain.old) (root lines.now) ≡ Some (configuration_of plain.old) }
    ensures judged { IfOk result (λ v. Judged (program_tree plain.old) lines.now v) }
    ensures text { IfOk result (λ v. text.new.items ≡ text.old.items ++ (part_text names.now (program_tree plain.old) (run (program_tree plain.old) (configuration_of plain.old) (labels (lines_before first lines.now))) (lines_between first last lines.now)
        ++ ending names.now (program_tree plain.old) (run (program_tree plain.old) (configuration_of plain.old) (labels lines.now)) v)) }
{
    let (before, shown, behind) = cut(lines, first, last);
    match push_part(text, names, plain, before, shown, behind) {
        Ok(None) => push_end(alloc, text, names, plain, lines),
        Ok(Some(stop)) => push_stop(alloc, text, names, stop),
        Err(_) => Err(AllocError),
    }
}

/// The text of a record from line `first` to line `last`, and the verdict on the whole record. Lines are counted from
/// 1, and the end line is one of them. The text begins with the configuration before line `first`. At its end are those
/// who wait after all lines. The lines before `first` and behind `last` are judged too, and are not shown. If one
/// before `first` is impossible, the text has only its first line and the verdict.
/// An error means out of memory, or that an object would have more than 1,000,000 methods under way.
/// The time is proportional to the transitions that all lines show, and to the text.
pub fn watch_lines(
    alloc: Global,
    program: &Checked<'_>,
    names: &Names,
    lines: &[Line],
    first: usize,
    last: usize,
) -> Result<Watched, AllocError>
    requires counted { 1 ≤ first }
    requires rising { first ≤ last }
    ensures { IfOk result (λ w. IsWatchedPart (program_of program.now.program.now) names.now lines.now first last w.text.items w.verdict) }
{
    let Ok(mut plain) = Plain::make(alloc, program, root(lines)) else {
        return Err(AllocError);
    };
    let mut text = Vec::new(alloc);
    let Ok(verdict) = push_judged_part(alloc, &mut text, names, &mut plain, lines, first, last)
    else {
        return Err(AllocError);
    };
    Ok(Watched { text, verdict })
}
