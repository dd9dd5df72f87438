//! All outcomes of a program: what its runs write until they end, and how they end.
ghost use Rattle.std.specs.Prelude.{◌≡◌, ◌<◌, ◌≤◌, ◌+◌, ◌⊎◌, ◌++◌, ◌∷◌, ℕ, List, [], Ok, Some, length, slice_get, IfOk, IfSome, OnOk, true, false};
ghost use Rattle.run_types.specs.Tables.{Each};
ghost use Rattle.run_types.specs.declared.types.Label.{Label};
ghost use Rattle.pool_syntax.specs.TreeOf.{program_of};
ghost use Rattle.pool_relation.specs.Transition.{start};
ghost use Rattle.pool_semantics.specs.PlainOf.{configuration_of, program_tree, is_spent};
ghost use Rattle.search_laws.specs.Tried.{with_writes};
ghost use Rattle.reachability.specs.Outcomes.{written};
ghost use Rattle.visited_set.specs.Courses.{course_of};
ghost use Rattle.pool_search.specs.Entries.{entries, lists, searched};
ghost use Rattle.pool_search.specs.FoundOutcomes.{IsNoRun, IsNoted, IsShownRun};
ghost use Rattle.pool_search.specs.CutOff.{IsCutOff};
ghost use Rattle.pool_search.specs.declared.queries.Cause.{Cause as OneCause};
ghost use Rattle.pool_search.specs.OutcomeTargets.{IsEndOf, IsShown, IsRunInOrder, HasAllOutcomes};
ghost use Rattle.pool_search.specs.Progress.{AllInOrder, AllReached, HasSearched, IsSearchedTo};
ghost use Rattle.pool_search.specs.declared.outcomes.Outcome.{Outcome as OneOutcome};

use crate::choices::Trial;
use crate::ends::{Ends, kind_of, written_by};
use crate::explored::Explored;
use crate::progress::Progress;
use crate::queries::Cause;
use crate::retracing::{retrace_in_order, way_to};
use crate::scope::Scope;
use crate::searching::begin;
use class_check::Checked;
use label_list::LabelList;
use pool_semantics::Plain;
use run_types::Item;
use std::alloc::{AllocError, Global};
use visited_set::{Hints, Keeps};

/// How a run ends. The first of these that applies is its kind.
#[derive(Clone, Copy)]
pub enum EndKind {
    /// An object has met a run-time error.
    Fault,
    /// An object is in a call.
    Stuck,
    /// An object waits at `answer` or `select`, or a message was not accepted.
    Left,
    /// Nothing is left.
    Done,
}

/// An outcome of a program: how a run ends, and the items that it wrote until then, in order.
#[derive(Drop)]
pub struct Outcome {
    pub kind: EndKind,
    pub items: Vec<Item>,
}

/// The outcomes that a search found.
#[derive(Drop)]
pub struct Outcomes {
    /// The outcomes, in the order in which they were found.
    pub list: Vec<Outcome>,
    /// Whether the list is complete. It is not if the search met a bound.
    pub whole: bool,
    /// The number of configurations that the search kept, but at most `most`.
    pub kept: u32,
    /// Why the list may not be complete, if it is not known to be.
    pub cause: Cause,
}

/// A run with one of the outcomes, or the end of the search if there is no such outcome.
#[derive(Drop)]
pub enum OutcomeRun {
    /// The outcome, and the labels of a run with this outcome. The first object has the name 0, and new objects have the
    /// names 1, 2, .. in order.
    Shown { outcome: Outcome, labels: LabelList },
    /// The list of outcomes is complete, and this one is not in it. The number of configurations that the search kept.
    Finite(u32),
    /// Unknown. The number of configurations that the search kept, but at most `most`, and why it ended.
    Over { kept: u32, cause: Cause },
}

/// What a search for outcomes keeps, and how much.
fn scope_of(most: u32) -> Scope
    ensures { (result.most ≡ most) × (course_of result.keeps ≡ with_writes) }
{
    Scope {
        keeps: Keeps::Writes,
        most,
    }
}

/// Notes the outcome of an entry, if it is an end. An error means out of memory.
fn note_end(explored: &Explored<'_>, at: u32, ends: &mut Ends) -> Result<(), AllocError>
    requires exists { at < length (entries explored.now) }
    requires reached { AllReached (searched explored.now) with_writes (entries explored.now) }
    ensures noted { OnOk result (IfSome (slice_get (entries explored.now) at) (λ e. IsNoted (searched explored.now) ends.new.list.items e)) }
    ensures grown { OnOk result ((added : List OneOutcome) × (ends.new.list.items ≡ ends.old.list.items ++ added)) }
    ensures shown { OnOk result (Each (IsShown (searched explored.now)) ends.old.list.items → Each (IsShown (searched explored.now)) ends.new.list.items) }
{
    let plain = explored.kept.configuration(at as usize)?;
    if plain.moving().is_some() {
        return Ok(());
    }
    let items = explored.kept.items(at as usize)?;
    ends.note(kind_of(&plain), items, at)
}

/// Visits an entry: tries its labels, and notes its outcome if none leads on. `false` if a bound is met. An error means
/// out of memory.
fn visit(
    alloc: Global,
    explored: &mut Explored<'_>,
    hints: &mut Hints,
    at: u32,
    most: u32,
    ends: &mut Ends,
) -> Result<bool, AllocError>
    requires exists { at < length (entries explored.old) }
    requires in_order { AllInOrder (entries explored.old) }
    requires reached { AllReached (searched explored.old) with_writes (entries explored.old) }
    ensures program { searched explored.new ≡ searched explored.old }
    ensures grown { OnOk result ((added : List OneOutcome) × (ends.new.list.items ≡ ends.old.list.items ++ added)) }
    ensures shown { OnOk result (Each (IsShown (searched explored.old)) ends.old.list.items → Each (IsShown (searched explored.old)) ends.new.list.items) }
    ensures done { result ≡ Ok true
        → HasSearched (searched explored.old) with_writes most (IsNoted (searched explored.old) ends.new.list.items) (entries explored.old) (entries explored.new) at }
{
    match explored.expand(alloc, hints, at, scope_of(most)) {
        Ok(Trial::Led(_)) => Ok(true),
        Ok(Trial::Over) => Ok(false),
        Ok(Trial::Tried) => {
            note_end(explored, at, ends)?;
            Ok(true)
        }
        Err(_) => Err(AllocError),
    }
}

/// Visits the entries in order, and then those that were added meanwhile. Whether all were visited: `false` if a bound
/// is met. An error means out of memory.
fn visit_all<P: Progress>(
    alloc: Global,
    explored: &mut Explored<'_>,
    most: u32,
    ends: &mut Ends,
    progress: &mut P,
) -> Result<bool, AllocError>
    requires begun { IsSearchedTo (searched explored.old) with_writes (IsNoted (searched explored.old) ends.old.list.items) (entries explored.old) 0 }
    requires within { length (entries explored.old) ≤ most }
    requires none { ends.old.list.items ≡ [] }
    ensures program { searched explored.new ≡ searched explored.old }
    ensures shown { IfOk result (λ _. Each (IsShown (searched explored.old)) ends.new.list.items) }
    ensures whole { result ≡ Ok true
        → IsSearchedTo (searched explored.old) with_writes (IsNoted (searched explored.old) ends.new.list.items) (entries explored.new) (length (entries explored.new)) }
{
    let mut hints = Hints::make(alloc);
    let mut at = 0;
    while (at as usize) < explored.kept.len() {
        progress.note(explored.count(most), at);
        match visit(alloc, explored, &mut hints, at, most, ends) {
            Ok(true) => at += 1,
            Ok(false) => return Ok(false),
            Err(_) => return Err(AllocError),
        }
    }
    Ok(true)
}

/// Searches all runs of a program for their outcomes, from an empty set. Whether all were found: `false` if a bound is
/// met. An error means out of memory.
fn find_all<'a, P: Progress>(
    alloc: Global,
    program: &Checked<'a>,
    explored: &mut Explored<'a>,
    most: u32,
    ends: &mut Ends,
    progress: &mut P,
) -> Result<bool, AllocError>
    requires program { searched explored.old ≡ program_of program.now.program.now }
    requires none { entries explored.old ≡ [] }
    requires lists { lists explored.old ≡ [] ∷ [] }
    requires none_found { ends.old.list.items ≡ [] }
    ensures shown { IfOk result (λ _. Each (IsShown (program_of program.now.program.now)) ends.new.list.items) }
    ensures whole { result ≡ Ok true → HasAllOutcomes (program_of program.now.program.now) ends.new.list.items }
{
    match begin(alloc, program, explored, scope_of(most)) {
        Ok(true) => visit_all(alloc, explored, most, ends, progress),
        Ok(false) => Ok(false),
        Err(_) => Err(AllocError),
    }
}

/// The outcomes that a search finds which begins with this empty set. An error means out of memory.
fn outcomes_from<'a, P: Progress>(
    alloc: Global,
    program: &Checked<'a>,
    explored: &mut Explored<'a>,
    most: u32,
    progress: &mut P,
) -> Result<Outcomes, AllocError>
    requires program { searched explored.old ≡ program_of program.now.program.now }
    requires none { entries explored.old ≡ [] }
    requires lists { lists explored.old ≡ [] ∷ [] }
    ensures shown { IfOk result (λ r. Each (IsShown (program_of program.now.program.now)) r.list.items) }
    ensures all { IfOk result (λ r. r.whole ≡ true → HasAllOutcomes (program_of program.now.program.now) r.list.items) }
    ensures within { IfOk result (λ r. r.kept ≤ most) }
    ensures cause { IfOk result (λ r. IsCutOff most r.kept r.cause) }
{
    let mut ends = Ends::make(alloc);
    match find_all(alloc, program, explored, most, &mut ends, progress) {
        Ok(whole) => Ok(Outcomes {
            list: ends.list,
            whole,
            kept: explored.count(most),
            cause: explored.cause(most)?,
        }),
        Err(_) => Err(AllocError),
    }
}

/// Searches all runs of a program for their outcomes. An error means out of memory, or more than 1,000,000 methods
/// under way in one object. The search is breadth-first, so the outcomes come in the order of the fewest kept
/// configurations. The list is not complete if more than `most` configurations would be kept, if 1,000,000 transitions
/// that need no choice follow one another, or if no number of 32 bits is left.
pub fn all_outcomes<P: Progress>(
    alloc: Global,
    program: &Checked<'_>,
    most: u32,
    progress: &mut P,
) -> Result<Outcomes, AllocError>
    ensures shown { IfOk result (λ r. Each (IsShown (program_of program.now.program.now)) r.list.items) }
    ensures all { IfOk result (λ r. r.whole ≡ true → HasAllOutcomes (program_of program.now.program.now) r.list.items) }
    ensures within { IfOk result (λ r. r.kept ≤ most) }
    ensures cause { IfOk result (λ r. IsCutOff most r.kept r.cause) }
{
    let mut explored = Explored::make(alloc, program.program);
    outcomes_from(alloc, program, &mut explored, most, progress)
}

/// The outcome of a run with these labels, which ends where the stepper is. None if a label is possible there. An error
/// means out of memory.
fn outcome_at(
    alloc: Global,
    plain: &Plain<'_>,
    labels: &LabelList,
) -> Result<Option<Outcome>, AllocError>
    requires { is_spent plain.now ≡ false }
    ensures { IfOk result (λ r. IfSome r (λ o. IsEndOf o.kind (program_tree plain.now) (configuration_of plain.now) × (written labels.now ≡ o.items.items))) }
{
    if plain.moving().is_some() {
        return Ok(None);
    }
    let items = written_by(alloc, labels)?;
    Ok(Some(Outcome {
        kind: kind_of(plain),
        items,
    }))
}

/// The outcome of the run of these indexes from the start, where the stepper is. Its labels become `labels`. None if
/// the run cannot be repeated, if it does not name new objects in order, or if a label is possible at its end. An error
/// means out of memory.
fn outcome_after(
    alloc: Global,
    plain: &mut Plain<'_>,
    way: &[u32],
    labels: &mut LabelList,
) -> Result<Option<Outcome>, AllocError>
    requires fresh { is_spent plain.old ≡ false }
    requires start { start (program_tree plain.old) 0 ≡ Some (configuration_of plain.old) }
    requires none { labels.old ≡ [] }
    ensures { IfOk result (λ r. IfSome r (λ o. IsRunInOrder (program_tree plain.old) o labels.new)) }
{
    match retrace_in_order(alloc, plain, Keeps::Writes, way, labels) {
        Ok(Some(_)) => outcome_at(alloc, plain, labels),
        Ok(None) => Ok(None),
        Err(_) => Err(AllocError),
    }
}

/// The run of these indexes as a run with an outcome. None where there is no outcome after it. An error means out of
/// memory.
fn show_run(
    alloc: Global,
    program: &Checked<'_>,
    way: &[u32],
) -> Result<Option<OutcomeRun>, AllocError>
    ensures { IfOk result (λ r. IfSome r (λ s. IsShownRun (program_of program.now.program.now) s)) }
{
    let mut plain = Plain::make(alloc, program, 0)?;
    let mut labels = LabelList::make(alloc);
    match outcome_after(alloc, &mut plain, way, &mut labels)? {
        Some(outcome) => Ok(Some(OutcomeRun::Shown { outcome, labels })),
        None => Ok(None),
    }
}

/// The result where no run is known. An error means out of memory.
fn no_run(explored: &Explored<'_>, most: u32) -> Result<OutcomeRun, AllocError>
    ensures { IfOk result (λ r. IsNoRun most r) }
{
    let cause = explored.cause(most)?;
    Ok(OutcomeRun::Over {
        kept: explored.count(most),
        cause,
    })
}

/// A run with the outcome at this place in the list that a search found. `whole` says whether the list is complete. An
/// error means out of memory.
fn run_at(
    alloc: Global,
    program: &Checked<'_>,
    explored: &Explored<'_>,
    ends: &Ends,
    whole: bool,
    most: u32,
    place: u32,
) -> Result<OutcomeRun, AllocError>
    requires { whole ≡ true → HasAllOutcomes (program_of program.now.program.now) ends.now.list.items }
    ensures shown { IfOk result (λ r. (o : OneOutcome) (ls : List Label) → r ≡ OutcomeRun.Shown o ls → IsRunInOrder (program_of program.now.program.now) o ls) }
    ensures finite { IfOk result (λ r. (k : ℕ) → r ≡ OutcomeRun.Finite k → (os : List OneOutcome) × HasAllOutcomes (program_of program.now.program.now) os × (length os ≤ place)) }
    ensures within { IfOk result (λ r. (k : ℕ) → r ≡ OutcomeRun.Finite k → k ≤ most) }
    ensures over { IfOk result (λ r. (k : ℕ) (why : OneCause) → r ≡ OutcomeRun.Over k why → IsCutOff most k why) }
{
    if ends.list.len() <= place as usize {
        if whole {
            return Ok(OutcomeRun::Finite(explored.count(most)));
        }
        return no_run(explored, most);
    }
    let Some(at) = ends.places.as_slice().get(place as usize) else {
        return no_run(explored, most);
    };
    let way = way_to(alloc, &explored.origins, *at)?;
    match show_run(alloc, program, &way) {
        Ok(Some(run)) => Ok(run),
        Ok(None) => no_run(explored, most),
        Err(_) => Err(AllocError),
    }
}

/// A run with the outcome at this place in the list that a search finds which begins with this empty set. An error
/// means out of memory.
fn run_from<'a, P: Progress>(
    alloc: Global,
    program: &Checked<'a>,
    explored: &mut Explored<'a>,
    most: u32,
    place: u32,
    progress: &mut P,
) -> Result<OutcomeRun, AllocError>
    requires program { searched explored.old ≡ program_of program.now.program.now }
    requires none { entries explored.old ≡ [] }
    requires lists { lists explored.old ≡ [] ∷ [] }
    ensures shown { IfOk result (λ r. (o : OneOutcome) (ls : List Label) → r ≡ OutcomeRun.Shown o ls → IsRunInOrder (program_of program.now.program.now) o ls) }
    ensures finite { IfOk result (λ r. (k : ℕ) → r ≡ OutcomeRun.Finite k → (os : List OneOutcome) × HasAllOutcomes (program_of program.now.program.now) os × (length os ≤ place)) }
    ensures within { IfOk result (λ r. (k : ℕ) → r ≡ OutcomeRun.Finite k → k ≤ most) }
    ensures over { IfOk result (λ r. (k : ℕ) (why : OneCause) → r ≡ OutcomeRun.Over k why → IsCutOff most k why) }
{
    let mut ends = Ends::make(alloc);
    match find_all(alloc, program, explored, most, &mut ends, progress) {
        Ok(whole) => run_at(alloc, program, explored, &ends, whole, most, place),
        Err(_) => Err(AllocError),
    }
}

/// A run with the outcome at this place in the list that `all_outcomes` gives, counted from 0. An error is as
/// of `all_outcomes`.
pub fn outcome_run<P: Progress>(
    alloc: Global,
    program: &Checked<'_>,
    most: u32,
    place: u32,
    progress: &mut P,
) -> Result<OutcomeRun, AllocError>
    ensures shown { IfOk result (λ r. (o : OneOutcome) (ls : List Label) → r ≡ OutcomeRun.Shown o ls → IsRunInOrder (program_of program.now.program.now) o ls) }
    ensures finite { IfOk result (λ r. (k : ℕ) → r ≡ OutcomeRun.Finite k → (os : List OneOutcome) × HasAllOutcomes (program_of program.now.program.now) os × (length os ≤ place)) }
    ensures within { IfOk result (λ r. (k : ℕ) → r ≡ OutcomeRun.Finite k → k ≤ most) }
    ensures over { IfOk result (λ r. (k : ℕ) (why : OneCause) → r ≡ OutcomeRun.Over k why → IsCutOff most k why) }
{
    let mut explored = Explored::make(alloc, program.program);
    run_from(alloc, program, &mut explored, most, place, progress)
}
