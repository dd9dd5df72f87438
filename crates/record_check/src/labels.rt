//! Makes the transitions that the lines of a record show, from the start of the program.
ghost use Rattle.std.specs.Prelude.{◌≡◌, ◌++◌, List, [], Some, IfOk, IfSome, IfNone};
ghost use Rattle.pool_syntax.specs.TreeOf.{program_of};
ghost use Rattle.run_types.specs.declared.types.Label.{Label};
ghost use Rattle.mesh_semantics.specs.Record.{ends_quiet, is_quiet_end, labels, labels_of};
ghost use Rattle.record_check.specs.RecordJudgement.{first_agent, root};
ghost use Rattle.record_check.specs.Leads.{Leads};

use crate::lead::{Mismatch, follow};
use class_check::Checked;
use pool_semantics::{Plain, agent};
use run_types::{End, Line, What};
use std::alloc::{AllocError, Global};

/// How far the labels of a record are possible: up to a line with an impossible transition, or up to the end.
#[derive(Drop)]
pub enum Followed<'a> {
    Stopped(Mismatch),
    Led(Plain<'a>),
}

/// The object that makes the first transition of a line. None if the line shows no transition.
fn first_of(line: &Line) -> Option<u32>
    ensures some { IfSome result (λ o. (rest : List Label) → first_agent (labels_of line.now ++ rest) ≡ o) }
    ensures none { IfNone result (labels_of line.now ≡ []) }
{
    match line {
        Line::Event {
            what: What::Step { label, times },
            ..
        } => {
            if *times == 0 {
                return None;
            }
            Some(agent(label))
        }
        _ => None,
    }
}

/// The name of the root object: the object of the first transition, or 0 if no line shows a transition.
pub fn root(lines: &[Line]) -> u32
    ensures { result ≡ root lines.now }
{
    for line in lines {
        if let Some(object) = first_of(line) {
            return object;
        }
    }
    0
}

/// Whether an end line says `quiet`.
pub fn is_quiet(lines: &[Line]) -> bool
    ensures { result ≡ ends_quiet lines.now }
{
    lines
        .iter()
        .any(|line| matches!(line, Line::End(End::Quiet { .. })))
}

/// Makes the transitions that the lines show, from the start of the program.
/// Returns the first line that shows an impossible transition, or the stepper after the last transition.
/// An error means out of memory.
pub fn judge_labels<'a>(
    alloc: Global,
    program: &Checked<'a>,
    lines: &[Line],
) -> Result<Followed<'a>, AllocError>
    ensures { IfOk result (λ f. Leads (program_of program.now.program.now) lines.now f) }
{
    let mut plain = Plain::make(alloc, program, root(lines))?;
    match follow(&mut plain, lines) {
        Ok(None) => Ok(Followed::Led(plain)),
        Ok(Some(stop)) => Ok(Followed::Stopped(stop)),
        Err(_) => Err(AllocError),
    }
}
