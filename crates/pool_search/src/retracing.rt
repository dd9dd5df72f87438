//! Repeats the run that leads to an entry, with each label that is applied.
ghost use Rattle.std.specs.Prelude.{◌≡◌, ℕ, [], Ok, IfOk, IfSome, true, false};
ghost use Rattle.pool_syntax.specs.TreeOf.{program_of};
ghost use Rattle.pool_semantics.specs.PlainOf.{configuration_of, program_tree, is_spent};
ghost use Rattle.pool_search.specs.SearchAnswers.{IsAnswer};
ghost use Rattle.pool_search.specs.SearchTargets.{IsShownFault, IsWantedEnd};
ghost use Rattle.pool_search.specs.Steps.{HasRetraced, HasShown};

use crate::changes::next_after;
use crate::classifier::{Classification, judge};
use crate::explored::{Origin, name_after};
use crate::queries::{Query, SearchResult};
use crate::settling::{make, settle_after, settle_shown};
use class_check::Checked;
use label_list::LabelList;
use pool_semantics::Plain;
use run_types::Label;
use std::alloc::{AllocError, Global};
use visited_set::Keeps;

/// The indexes of the labels that lead to an entry, the last first. An error means out of memory.
/// No proof depends on them: the run is repeated, and its end is classified again.
pub fn way_to(alloc: Global, origins: &[Origin], at: u32) -> Result<Vec<u32>, AllocError> {
    let mut way = Vec::new(alloc);
    let mut at = at;
    for _step in 0..origins.len() {
        let Some(origin) = origins.get(at as usize) else {
            break;
        };
        if at == 0 {
            break;
        }
        way.push(origin.label)?;
        at = origin.from;
    }
    Ok(way)
}

/// Applies a label, and then all transitions that the search follows. Appends each label to `shown`.
/// `false` if the label is impossible or settling meets its bound. An error means out of memory.
fn pass(
    plain: &mut Plain<'_>,
    keeps: Keeps,
    label: &Label,
    shown: &mut LabelList,
) -> Result<bool, AllocError>
    requires { is_spent plain.old ≡ false }
    ensures { result ≡ Ok true → HasShown plain.old plain.new shown.old shown.new }
{
    match make(plain, label) {
        Ok(true) => settle_after(plain, keeps, label, shown),
        Ok(false) => Ok(false),
        Err(_) => Err(AllocError),
    }
}

/// Applies the label at this index among those to try, and settles. Returns the next free name.
/// None if there is no such label, it is impossible, or a bound is met. An error means out of memory.
fn pass_at(
    alloc: Global,
    plain: &mut Plain<'_>,
    keeps: Keeps,
    next: u32,
    place: u32,
    shown: &mut LabelList,
) -> Result<Option<u32>, AllocError>
    requires { is_spent plain.old ≡ false }
    ensures { IfOk result (λ o. IfSome o (λ _. HasShown plain.old plain.new shown.old shown.new)) }
{
    let mut labels = Vec::new(alloc);
    plain.labels(next, &mut labels)?;
    let Some(label) = labels.get(place as usize) else {
        return Ok(None);
    };
    match pass(plain, keeps, label, shown) {
        Ok(true) => Ok(name_after(next, label)),
        Ok(false) => Ok(None),
        Err(_) => Err(AllocError),
    }
}

/// Repeats a run from the start. `way` has the indexes of its labels, the last first.
/// `false` if a label is impossible or a bound is met. An error means out of memory.
fn retrace(
    alloc: Global,
    plain: &mut Plain<'_>,
    keeps: Keeps,
    way: &[u32],
    shown: &mut LabelList,
) -> Result<bool, AllocError>
    requires { is_spent plain.old ≡ false }
    ensures { result ≡ Ok true → HasShown plain.old plain.new shown.old shown.new }
{
    if !settle_shown(plain, keeps, shown)? {
        return Ok(false);
    }
    let mut next = 1;
    for place in way.iter().rev() {
        match pass_at(alloc, plain, keeps, next, *place, shown) {
            Ok(Some(after)) => next = after,
            Ok(None) => return Ok(false),
            Err(_) => return Err(AllocError),
        }
    }
    Ok(true)
}

/// Repeats a run in the same way, and returns the next free name after it. None also if its labels do not give new
/// objects the names 1, 2, .. in order, or if no name of 32 bits is left.
pub fn retrace_in_order(
    alloc: Global,
    plain: &mut Plain<'_>,
    keeps: Keeps,
    way: &[u32],
    shown: &mut LabelList,
) -> Result<Option<u32>, AllocError>
    requires fresh { is_spent plain.old ≡ false }
    requires none { shown.old ≡ [] }
    ensures { IfOk result (λ o. IfSome o (λ n. HasRetraced plain.old plain.new shown.new n)) }
{
    match retrace(alloc, plain, keeps, way, shown) {
        Ok(true) => Ok(next_after(1, shown)),
        Ok(false) => Ok(None),
        Err(_) => Err(AllocError),
    }
}

/// Repeats a run from the start, and returns the kind of its last configuration. `Neither` also if the run cannot be
/// repeated, or if no name of 32 bits is left. An error means out of memory.
fn judge_end(
    alloc: Global,
    plain: &mut Plain<'_>,
    way: &[u32],
    question: &Query,
    shown: &mut LabelList,
) -> Result<Classification, AllocError>
    requires fresh { is_spent plain.old ≡ false }
    requires none { shown.old ≡ [] }
    ensures stuck { result ≡ Ok Classification.Stuck → ((n : ℕ) × HasRetraced plain.old plain.new shown.new n) × IsWantedEnd (program_tree plain.new) question.now (configuration_of plain.new) }
    ensures fault { result ≡ Ok Classification.Fault → ((n : ℕ) × HasRetraced plain.old plain.new shown.new n) × IsShownFault (program_tree plain.new) question.now (configuration_of plain.new) }
{
    match retrace_in_order(alloc, plain, Keeps::States, way, shown) {
        Ok(Some(_)) => Ok(judge(plain, question)),
        Ok(None) => Ok(Classification::Neither),
        Err(_) => Err(AllocError),
    }
}

/// The run of these indexes as a result. None if the run cannot be repeated, if no name of 32 bits is left, or if the
/// query does not look for its end. An error means out of memory.
pub fn show(
    alloc: Global,
    program: &Checked<'_>,
    way: &[u32],
    question: &Query,
) -> Result<Option<SearchResult>, AllocError>
    ensures { IfOk result (λ r. IfSome r (λ f. IsAnswer (program_of program.now.program.now) question.now f)) }
{
    let mut plain = Plain::make(alloc, program, 0)?;
    let mut shown = LabelList::make(alloc);
    match judge_end(alloc, &mut plain, way, question, &mut shown) {
        Ok(Classification::Stuck) => Ok(Some(SearchResult::Stuck(shown))),
        Ok(Classification::Fault) => Ok(Some(SearchResult::Fault(shown))),
        Ok(Classification::Neither) => Ok(None),
        Err(_) => Err(AllocError),
    }
}
