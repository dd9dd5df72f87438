//! The lines of a record: their numbers, and the transitions that they show.
ghost use Rattle.std.specs.Prelude.{◌≡◌, ◌++◌, List, [], IfSome, IfNone};
ghost use Rattle.run_types.specs.declared.types.Label.{Label};
ghost use Rattle.mesh_semantics.specs.Record.{labels};
ghost use Rattle.record_check.specs.RecordJudgement.{first_agent};
ghost use Rattle.stream_check.specs.Filled.{shows_local, without_local_of};
ghost use Rattle.stream_check.specs.FillProgress.{caller_of, own_labels, with_done};

use pool_semantics::agent;
use run_types::{End, Label, Line, What};

/// The end line with this number.
pub fn with_done(done: u32, end: End) -> End
    ensures { result ≡ with_done done end }
{
    match end {
        End::Quiet { .. } => End::Quiet { done },
        End::Schedule { .. } => End::Schedule { done },
        End::Full { kind, node, .. } => End::Full { kind, node, done },
    }
}

/// Whether the line shows local transitions.
pub fn shows_local(line: &Line) -> bool
    ensures { result ≡ shows_local line.now }
{
    matches!(
        line,
        Line::Event {
            what: What::Step {
                label: Label::Local { .. },
                ..
            },
            ..
        }
    )
}

/// The caller of an answer or a return. None for other labels.
pub fn caller_of(label: &Label) -> Option<u32>
    ensures { result ≡ caller_of label.now }
{
    match label {
        Label::Answer { caller, .. } | Label::Return { caller, .. } => Some(*caller),
        _ => None,
    }
}

/// The object that makes the first transition of a line. None if the line shows no transition, or local ones.
fn first_of(line: &Line) -> Option<u32>
    ensures some { IfSome result (λ o. (rest : List Label) → first_agent (labels (without_local_of line.now) ++ rest) ≡ o) }
    ensures none { IfNone result (labels (without_local_of line.now) ≡ []) }
{
    if shows_local(line) {
        return None;
    }
    match line {
        Line::Event {
            what: What::Step { label, times },
            ..
        } => {
            if *times == 0 {
                return None;
            }
            Some(agent(label))
        }
        _ => None,
    }
}

/// The name of the root object: the object of the first transition that is not local, or 0 if no line shows one.
pub fn first_object(lines: &[Line]) -> u32
    ensures { result ≡ first_agent (own_labels lines.now) }
{
    for line in lines {
        if let Some(object) = first_of(line) {
            return object;
        }
    }
    0
}
