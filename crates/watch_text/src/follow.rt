//! Follows the lines of a record, and writes each with what it changed.
ghost use Rattle.std.specs.Prelude.{◌≡◌, ◌++◌, Some, IfOk, IfSome, IfNone, OnOk, false};
ghost use Rattle.pool_relation.specs.Transition.{run};
ghost use Rattle.mesh_semantics.specs.Record.{labels, labels_of};
ghost use Rattle.pool_semantics.specs.PlainOf.{configuration_of, program_tree, is_spent};
ghost use Rattle.record_check.specs.Verdicts.{StopsIn, StopsLine};
ghost use Rattle.term_text.specs.Watched.{followed_text, shown_change};
ghost use Rattle.watch_text.specs.Steps.{step_text};

use crate::changes::push_change;
use crate::line::push_line;
use pool_semantics::Plain;
use record_check::{Mismatch, follow_line};
use run_types::{Line, Names, What};
use std::alloc::AllocError;

/// Appends what a line changed, as it is in the stepper's configuration after it.
fn push_shown(
    text: &mut Vec<u8>,
    names: &Names,
    plain: &Plain<'_>,
    line: &Line,
) -> Result<(), AllocError>
    ensures { OnOk result (text.new.items ≡ text.old.items ++ shown_change names.now (program_tree plain.now) line.now (configuration_of plain.now)) }
{
    match line {
        Line::Event {
            what: What::Step { label, .. },
            ..
        } => push_change(text, names, plain.state(), label),
        _ => Ok(()),
    }
}

/// Appends a line, applies the labels that it shows, and appends what it changed if they are possible.
/// Returns the line if one is impossible. An error means out of memory.
fn push_step(
    text: &mut Vec<u8>,
    names: &Names,
    plain: &mut Plain<'_>,
    line: &Line,
) -> Result<Option<Mismatch>, AllocError>
    ensures program { program_tree plain.new ≡ program_tree plain.old }
    ensures going_on { IfOk result (λ _. is_spent plain.old ≡ false → is_spent plain.new ≡ false) }
    ensures leads { IfOk result (λ r. IfNone r (run (program_tree plain.old) (configuration_of plain.old) (labels_of line.now) ≡ Some (configuration_of plain.new))) }
    ensures stops { IfOk result (λ r. IfSome r (λ s. StopsLine (program_tree plain.old) (configuration_of plain.old) line.now s.number (configuration_of plain.new) s.redex)) }
    ensures text { IfOk result (λ r. text.new.items ≡ text.old.items ++ step_text names.now (program_tree plain.old) (configuration_of plain.old) line.now) }
{
    push_line(text, names, line)?;
    match follow_line(plain, line) {
        Ok(None) => {
            push_shown(text, names, plain, line)?;
            Ok(None)
        }
        Ok(Some(stop)) => Ok(Some(stop)),
        Err(_) => Err(AllocError),
    }
}

/// Appends each line with what it changed, up to the first impossible line. Returns that line, or None if all labels
/// were applied. An error means out of memory.
pub fn push_followed(
    text: &mut Vec<u8>,
    names: &Names,
    plain: &mut Plain<'_>,
    lines: &[Line],
) -> Result<Option<Mismatch>, AllocError>
    ensures program { program_tree plain.new ≡ program_tree plain.old }
    ensures going_on { IfOk result (λ _. is_spent plain.old ≡ false → is_spent plain.new ≡ false) }
    ensures leads { IfOk result (λ r. IfNone r (run (program_tree plain.old) (configuration_of plain.old) (labels lines.now) ≡ Some (configuration_of plain.new))) }
    ensures stops { IfOk result (λ r. IfSome r (λ s. StopsIn (program_tree plain.old) (configuration_of plain.old) lines.now s.number (configuration_of plain.new) s.redex)) }
    ensures text { IfOk result (λ _. text.new.items ≡ text.old.items ++ followed_text names.now (program_tree plain.old) (configuration_of plain.old) lines.now) }
{
    for line in lines {
        match push_step(text, names, plain, line) {
            Ok(None) => {}
            Ok(Some(stop)) => return Ok(Some(stop)),
            Err(_) => return Err(AllocError),
        }
    }
    Ok(None)
}
