//! Applies the labels of lines to a stepper.
ghost use Rattle.std.specs.Prelude.{◌≡◌, Some, IfOk, IfSome, IfNone, false, replicate};
ghost use Rattle.pool_relation.specs.Transition.{run};
ghost use Rattle.mesh_semantics.specs.Record.{labels, labels_of};
ghost use Rattle.pool_semantics.specs.PlainOf.{configuration_of, program_tree, is_spent};
ghost use Rattle.record_check.specs.Verdicts.{StopsAfter, StopsIn, StopsLine};

use pool_semantics::{Plain, Refuse};
use run_types::{Label, Line, Redex, What};
use std::alloc::AllocError;

/// A line that shows an impossible transition: its number, and the redex of the object of this transition.
#[derive(Clone, Copy)]
pub struct Mismatch {
    pub number: u32,
    pub redex: Redex,
}

/// Applies the label `times` times. Returns the redex of its object at the first time that it is impossible.
/// An error means out of memory.
#[tactic(auto, using(crate::proofs::RunExtension::one_more))]
fn make_times(plain: &mut Plain<'_>, label: &Label, times: u32) -> Result<Option<Redex>, AllocError>
    ensures program { program_tree plain.new ≡ program_tree plain.old }
    ensures going_on { IfOk result (λ _. is_spent plain.old ≡ false → is_spent plain.new ≡ false) }
    ensures made { IfOk result (λ r. IfNone r (run (program_tree plain.old) (configuration_of plain.old) (replicate times label.now) ≡ Some (configuration_of plain.new))) }
    ensures stopped { IfOk result (λ r. IfSome r (λ redex. StopsAfter (program_tree plain.old) (configuration_of plain.old) label.now times (configuration_of plain.new) redex)) }
{
    for _made in 0..times {
        match plain.apply(label) {
            Ok(()) => {}
            Err(Refuse::NotPossible { redex }) => return Ok(Some(redex)),
            Err(Refuse::Memory) => return Err(AllocError),
        }
    }
    Ok(None)
}

/// Applies the labels that a line shows, up to the first that is impossible.
/// Returns the line if a label is impossible, and None if all labels were applied.
/// An error means out of memory, or that an object would have more than 1,000,000 methods under way.
pub fn follow_line(plain: &mut Plain<'_>, line: &Line) -> Result<Option<Mismatch>, AllocError>
    ensures program { program_tree plain.new ≡ program_tree plain.old }
    ensures going_on { IfOk result (λ _. is_spent plain.old ≡ false → is_spent plain.new ≡ false) }
    ensures leads { IfOk result (λ r. IfNone r (run (program_tree plain.old) (configuration_of plain.old) (labels_of line.now) ≡ Some (configuration_of plain.new))) }
    ensures stops { IfOk result (λ r. IfSome r (λ s. StopsLine (program_tree plain.old) (configuration_of plain.old) line.now s.number (configuration_of plain.new) s.redex)) }
{
    match line {
        Line::Event {
            number,
            what: What::Step { label, times },
            ..
        } => match make_times(plain, label, *times) {
            Ok(None) => Ok(None),
            Ok(Some(redex)) => Ok(Some(Mismatch {
                number: *number,
                redex,
            })),
            Err(_) => Err(AllocError),
        },
        _ => Ok(None),
    }
}

/// Applies the labels that the lines show, up to the first that is impossible.
/// Returns that line, or None if all labels were applied. An error means the same as for `follow_line`.
pub fn follow(plain: &mut Plain<'_>, lines: &[Line]) -> Result<Option<Mismatch>, AllocError>
    ensures program { program_tree plain.new ≡ program_tree plain.old }
    ensures going_on { IfOk result (λ _. is_spent plain.old ≡ false → is_spent plain.new ≡ false) }
    ensures leads { IfOk result (λ r. IfNone r (run (program_tree plain.old) (configuration_of plain.old) (labels lines.now) ≡ Some (configuration_of plain.new))) }
    ensures stops { IfOk result (λ r. IfSome r (λ s. StopsIn (program_tree plain.old) (configuration_of plain.old) lines.now s.number (configuration_of plain.new) s.redex)) }
{
    for line in lines {
        match follow_line(plain, line) {
            Ok(None) => {}
            Ok(Some(stop)) => return Ok(Some(stop)),
            Err(_) => return Err(AllocError),
        }
    }
    Ok(None)
}
