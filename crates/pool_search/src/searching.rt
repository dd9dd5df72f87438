//! The breadth-first search.
ghost use Rattle.std.specs.Prelude.{◌≡◌, ◌<◌, ◌≤◌, ◌∷◌, ℕ, List, [], Ok, Some, IfOk, IfSome, length, true, false};
ghost use Rattle.std.specs.Global.{Global};
ghost use Rattle.std.specs.declared.vec.Vec.{Vec};
ghost use Rattle.pool_syntax.specs.TreeOf.{program_of};
ghost use Rattle.pool_relation.specs.Transition.{start};
ghost use Rattle.pool_semantics.specs.PlainOf.{configuration_of, program_tree, is_spent};
ghost use Rattle.run_types.specs.declared.types.Label.{Label};
ghost use Rattle.search_laws.specs.Tried.{states_only};
ghost use Rattle.visited_set.specs.Courses.{course_of};
ghost use Rattle.pool_search.specs.Entries.{IsPassedOver, entries, lists, searched};
ghost use Rattle.pool_search.specs.Progress.{AllInOrder, IsSearchedTo};
ghost use Rattle.pool_search.specs.SearchTargets.{IsFinite, IsShownFault, IsWantedDead, IsWantedEnd, LeadsInOrder, wants_stuck};
ghost use Rattle.pool_search.specs.SearchAnswers.{IsAnswer};
ghost use Rattle.pool_search.specs.CutOff.{IsCutOff};
ghost use Rattle.pool_search.specs.declared.queries.Cause.{Cause as OneCause};
ghost use Rattle.pool_syntax.specs.Terms.{ProgramTree};
ghost use Rattle.pool_search.specs.declared.queries.Query.{Query};

use crate::explored::{Explored, Origin, RunEnd};
use crate::progress::Progress;
use crate::queries::{Query, SearchResult, Target};
use crate::retracing::{retrace_in_order, show, way_to};
use crate::scope::Scope;
use class_check::Checked;
use label_list::LabelList;
use pool_semantics::Plain;
use std::alloc::{AllocError, Global};
use visited_set::{Keeps, Waiters};

/// Settles the start and keeps it in this empty set. `false` if a bound is met. An error means out of memory.
pub fn begin<'a>(
    alloc: Global,
    program: &Checked<'a>,
    explored: &mut Explored<'a>,
    scope: Scope,
) -> Result<bool, AllocError>
    requires program { searched explored.old ≡ program_of program.now.program.now }
    requires none { entries explored.old ≡ [] }
    requires lists { lists explored.old ≡ [] ∷ [] }
    ensures program { searched explored.new ≡ searched explored.old }
    ensures begun { result ≡ Ok true → IsSearchedTo (searched explored.new) (course_of scope.keeps) (λ _. Unit {0}) (entries explored.new) 0 }
    ensures within { result ≡ Ok true → length (entries explored.new) ≤ scope.most }
{
    let mut plain = Plain::make(alloc, program, 0)?;
    let origin = Origin { from: 0, label: 0 };
    match explored.settle_and_keep(&mut plain, 1, 0, origin, scope) {
        Ok(Some(_)) => Ok(true),
        Ok(None) => Ok(false),
        Err(_) => Err(AllocError),
    }
}

/// The objects that are dead in an entry, to which the stepper comes from the start. The labels of the run become
/// `labels`. None if none is known to be dead. An error means out of memory.
fn dead_after<'a>(
    alloc: Global,
    explored: &mut Explored<'a>,
    waiters: &Waiters,
    at: u32,
    plain: &mut Plain<'a>,
    labels: &mut LabelList,
) -> Result<Option<Vec<u32>>, AllocError>
    requires exists { at < length (entries explored.old) }
    requires fresh { is_spent plain.old ≡ false }
    requires start { start (program_tree plain.old) 0 ≡ Some (configuration_of plain.old) }
    requires none { labels.old ≡ [] }
    requires program { searched explored.old ≡ program_tree plain.old }
    requires in_order { AllInOrder (entries explored.old) }
    ensures { IfOk result (λ r. IfSome r (λ names. (q : Query) → wants_stuck q.wanted ≡ true → IsAnswer (program_tree plain.old) q (SearchResult.Dead labels.new names))) }
{
    let way = way_to(alloc, &explored.origins, at)?;
    match retrace_in_order(alloc, plain, Keeps::States, &way, labels) {
        Ok(Some(next)) => explored.dead_where(waiters, plain, at, next),
        Ok(None) => Ok(None),
        Err(_) => Err(AllocError),
    }
}

/// The run to an entry, with the objects that are dead there. None if none is known to be dead. An error means out of
/// memory.
fn show_dead<'a>(
    alloc: Global,
    program: &Checked<'a>,
    explored: &mut Explored<'a>,
    waiters: &Waiters,
    at: u32,
) -> Result<Option<SearchResult>, AllocError>
    requires program { searched explored.old ≡ program_of program.now.program.now }
    requires in_order { AllInOrder (entries explored.old) }
    ensures { IfOk result (λ r. IfSome r (λ f. (q : Query) → wants_stuck q.wanted ≡ true → IsAnswer (program_of program.now.program.now) q f)) }
{
    if at as usize >= explored.kept.len() {
        return Ok(None);
    }
    let mut plain = Plain::make(alloc, program, 0)?;
    let mut labels = LabelList::make(alloc);
    match dead_after(alloc, explored, waiters, at, &mut plain, &mut labels)? {
        Some(names) => Ok(Some(SearchResult::Dead { labels, names })),
        None => Ok(None),
    }
}

/// Whether the query looks for stuck configurations.
fn wants_stuck(wanted: Target) -> bool
    ensures { result ≡ wants_stuck wanted }
{
    match wanted {
        Target::Stuck | Target::Both => true,
        Target::Fault => false,
    }
}

/// The result of a search that does not know the answer. An error means out of memory.
fn unknown(explored: &Explored<'_>, question: &Query) -> Result<SearchResult, AllocError>
    ensures { IfOk result (λ f. (p : ProgramTree) → IsAnswer p question.now f) }
{
    let cause = explored.cause(question.most)?;
    Ok(SearchResult::Over {
        kept: explored.count(question.most),
        cause,
    })
}

/// The result of a search that has kept its whole list. An error means out of memory.
fn whole_answer<'a>(
    alloc: Global,
    program: &Checked<'a>,
    explored: &mut Explored<'a>,
    question: &Query,
) -> Result<SearchResult, AllocError>
    requires program { searched explored.old ≡ program_of program.now.program.now }
    requires whole { IsSearchedTo (searched explored.old) states_only (IsPassedOver (searched explored.old) question.now) (entries explored.old) (length (entries explored.old)) }
    requires within { length (entries explored.old) ≤ question.now.most }
    ensures { IfOk result (λ f. IsAnswer (program_of program.now.program.now) question.now f) }
{
    let kept = explored.count(question.most);
    if !wants_stuck(question.wanted) {
        return Ok(SearchResult::Finite(kept));
    }
    let Some(mut waiters) = explored.waiters(alloc)? else {
        return unknown(explored, question);
    };
    explored.note_all(alloc, &mut waiters)?;
    if waiters.all_go_on() {
        return Ok(SearchResult::Finite(kept));
    }
    let Some(at) = waiters.fullest() else {
        return unknown(explored, question);
    };
    match show_dead(alloc, program, explored, &waiters, at)? {
        Some(found) => Ok(found),
        None => unknown(explored, question),
    }
}

/// The result of a search that has kept its start. An error means out of memory.
fn answer<'a, P: Progress>(
    alloc: Global,
    program: &Checked<'a>,
    explored: &mut Explored<'a>,
    question: &Query,
    progress: &mut P,
) -> Result<SearchResult, AllocError>
    requires program { searched explored.old ≡ program_of program.now.program.now }
    requires begun { IsSearchedTo (searched explored.old) states_only (IsPassedOver (searched explored.old) question.now) (entries explored.old) 0 }
    requires within { length (entries explored.old) ≤ question.now.most }
    ensures { IfOk result (λ f. IsAnswer (program_of program.now.program.now) question.now f) }
{
    let at = match explored.look(alloc, question, progress)? {
        RunEnd::Whole => return whole_answer(alloc, program, explored, question),
        RunEnd::Over => return unknown(explored, question),
        RunEnd::Shown(at) => at,
    };
    let way = way_to(alloc, &explored.origins, at)?;
    match show(alloc, program, &way, question)? {
        Some(found) => Ok(found),
        None => unknown(explored, question),
    }
}

/// The result of a search that begins with this empty set. An error means out of memory.
fn search_from<'a, P: Progress>(
    alloc: Global,
    program: &Checked<'a>,
    explored: &mut Explored<'a>,
    question: &Query,
    progress: &mut P,
) -> Result<SearchResult, AllocError>
    requires program { searched explored.old ≡ program_of program.now.program.now }
    requires none { entries explored.old ≡ [] }
    requires lists { lists explored.old ≡ [] ∷ [] }
    ensures { IfOk result (λ f. IsAnswer (program_of program.now.program.now) question.now f) }
{
    let scope = Scope {
        keeps: Keeps::States,
        most: question.most,
    };
    match begin(alloc, program, explored, scope) {
        Ok(true) => answer(alloc, program, explored, question, progress),
        Ok(false) => unknown(explored, question),
        Err(_) => Err(AllocError),
    }
}

/// Searches all runs of a program for one that the query looks for. An error means out of memory, or more than
/// 1,000,000 methods under way in one object. The search is breadth-first, so the run of a result `Stuck` or `Fault`
/// passes the fewest kept configurations. If no run leads to such a configuration, but a dead object is found, the
/// result is `Dead`. Its run leads to one of the configurations with the most dead objects. The result is `Over` if
/// more than `most` configurations would be kept, or if 1,000,000 transitions that need no choice follow one another.
/// It is also `Over` if no number of 32 bits is left for an object or for the state of an object.
pub fn search<P: Progress>(
    alloc: Global,
    program: &Checked<'_>,
    question: &Query,
    progress: &mut P,
) -> Result<SearchResult, AllocError>
    ensures stuck { (ls : List Label) → result ≡ Ok (SearchResult.Stuck ls)
        → LeadsInOrder (program_of program.now.program.now) ls (IsWantedEnd (program_of program.now.program.now) question.now) }
    ensures dead { (ls : List Label) (names : Vec ℕ Global) → result ≡ Ok (SearchResult.Dead ls names)
        → LeadsInOrder (program_of program.now.program.now) ls (IsWantedDead (program_of program.now.program.now) question.now names.items) }
    ensures fault { (ls : List Label) → result ≡ Ok (SearchResult.Fault ls) → LeadsInOrder (program_of program.now.program.now) ls (IsShownFault (program_of program.now.program.now) question.now) }
    ensures finite { (k : ℕ) → result ≡ Ok (SearchResult.Finite k) → IsFinite (program_of program.now.program.now) question.now k }
    ensures over { (k : ℕ) (why : OneCause) → result ≡ Ok (SearchResult.Over k why) → IsCutOff question.now.most k why }
{
    let mut explored = Explored::make(alloc, program.program);
    search_from(alloc, program, &mut explored, question, progress)
}
