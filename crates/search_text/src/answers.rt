//! Searches a program, and makes the answer.
ghost use Rattle.std.specs.Prelude.{◌≡◌, ◌++◌, map, string_bytes, IfOk};
ghost use Rattle.pool_syntax.specs.TreeOf.{program_of};
ghost use Rattle.pool_search.specs.SearchTargets.{IsWantedDead, IsWantedEnd, LeadsInOrder};
ghost use Rattle.search_text.specs.AnswerText.{ending, outcomes_text};
ghost use Rattle.search_text.specs.Answers.{Answers, Grades, GradesEnds, IsAnswerTo, ShowsRun, TellsOutcomes, found_of};
ghost use Rattle.search_text.specs.Inquiries.{inquiry};
ghost use Rattle.search_text.specs.ListedOutcomes.{TellsAllowed};

use crate::answer::{
    fault_answer, finite_answer, outcomes_text, over_answer, running_answer, shown_answer,
    waiting_answer, wrong_answer,
};
use crate::chosen::rows_of;
use crate::grading::{first_wrong, is_allowed};
use crate::shown::replay;
use class_check::Checked;
use label_list::LabelList;
use pool_search::{
    OutcomeRun, Outcomes, Progress, Query, SearchResult, Target, all_outcomes, outcome_run, search,
};
use run_types::Names;
use std::alloc::{AllocError, Global};
use waiting_objects::waiting_rows;

/// A question to the search.
#[derive(Clone, Copy)]
pub enum Question<'a> {
    /// Is there a run that the query looks for?
    Sought(Query),
    /// All outcomes. The search keeps at most `most` configurations.
    Outcomes {
        most: u32,
    },
    /// A run with the outcome at this place in the list of outcomes, counted from 1. The search keeps at most `most`
    /// configurations.
    Run {
        place: u32,
        most: u32,
    },
    /// Does each run that comes to its end write one of these outputs, does no run lead to a dead object or a run-time
    /// error, and does some run come to its end, unless the program may run on? An output is the items of the line of an
    /// outcome, with a space between each two. The search keeps at most `most` configurations.
    Graded {
        allowed: &'a [String],
        may_run_on: bool,
        most: u32,
    },
}

/// What a search found.
#[derive(Clone, Copy)]
pub enum Found {
    /// No run leads to a configuration that the search looks for, or has an outcome that is not allowed.
    Finite,
    /// The same, and no run comes to its end, although the question asks for one.
    Running,
    /// The text has a run that leads to such a configuration, or has an outcome that is not allowed.
    Shown,
    /// The search met a bound: `most` on kept configurations, 1,000,000 on transitions without a choice in a row, or a
    /// bound on numbers of 32 bits.
    Over,
    /// The text has the run with the outcome that was asked for.
    Run,
    /// The list of outcomes is complete, and the one that was asked for is not in it.
    Missing,
}

/// The text of a search's result, and what the search found.
#[derive(Drop)]
pub struct Answer {
    pub text: Vec<u8>,
    pub found: Found,
}

/// The answer for a run that gets stuck, with the objects that wait at its end. An error means out of memory.
fn stuck_answer(
    alloc: Global,
    program: &Checked<'_>,
    names: &Names,
    question: &Query,
    labels: &LabelList,
) -> Result<Answer, AllocError>
    requires { LeadsInOrder (program_of program.now.program.now) labels.now (IsWantedEnd (program_of program.now.program.now) question.now) }
    ensures { IfOk result (λ a. Answers names.now (program_of program.now.program.now) question.now a.text.items a.found) }
{
    let Ok(plain) = replay(alloc, program, labels) else {
        return Err(AllocError);
    };
    let Ok(rows) = waiting_rows(alloc, &plain, question.all) else {
        return Err(AllocError);
    };
    waiting_answer(alloc, names, labels, &rows)
}

/// The answer for a run after which these objects are dead. An error means out of memory.
fn dead_answer(
    alloc: Global,
    program: &Checked<'_>,
    names: &Names,
    question: &Query,
    labels: &LabelList,
    dead: &[u32],
) -> Result<Answer, AllocError>
    requires { LeadsInOrder (program_of program.now.program.now) labels.now (IsWantedDead (program_of program.now.program.now) question.now dead.now) }
    ensures { IfOk result (λ a. Answers names.now (program_of program.now.program.now) question.now a.text.items a.found) }
{
    let Ok(plain) = replay(alloc, program, labels) else {
        return Err(AllocError);
    };
    let Ok(waiting) = waiting_rows(alloc, &plain, false) else {
        return Err(AllocError);
    };
    let Ok(rows) = rows_of(alloc, &waiting, dead) else {
        return Err(AllocError);
    };
    waiting_answer(alloc, names, labels, &rows)
}

/// The answer to the question for a run of some kind. An error means out of memory.
fn sought_answer<P: Progress>(
    alloc: Global,
    program: &Checked<'_>,
    names: &Names,
    question: &Query,
    progress: &mut P,
) -> Result<Answer, AllocError>
    ensures { IfOk result (λ a. Answers names.now (program_of program.now.program.now) question.now a.text.items a.found) }
{
    match search(alloc, program, question, progress) {
        Ok(SearchResult::Stuck(labels)) => stuck_answer(alloc, program, names, question, &labels),
        Ok(
            SearchResult::Dead {
                labels,
                names: dead,
            },
        ) => { dead_answer(alloc, program, names, question, &labels, &dead) }
        Ok(SearchResult::Fault(labels)) => fault_answer(alloc, names, &labels),
        Ok(SearchResult::Finite(kept)) => finite_answer(alloc, kept, Found::Finite),
        Ok(SearchResult::Over { kept, cause }) => over_answer(alloc, names, kept, &cause),
        Err(AllocError) => Err(AllocError),
    }
}

/// What was found where all outcomes are asked for. `whole` tells whether the list is complete.
fn found_of(whole: bool) -> Found
    ensures { result ≡ found_of whole }
{
    if whole { Found::Finite } else { Found::Over }
}

/// The answer that lists the outcomes. `whole` tells whether the list is complete. An error means out of memory.
fn listed_answer(
    alloc: Global,
    names: &Names,
    told: &Outcomes,
    whole: bool,
) -> Result<Answer, AllocError>
    ensures { IfOk result (λ a. (a.text.items ≡ outcomes_text names.now told.now.list.items ++ ending names.now whole told.now.kept told.now.cause) × (a.found ≡ found_of whole)) }
{
    let text = outcomes_text(
        alloc,
        names,
        &told.list,
        whole,
        told.kept as usize,
        &told.cause,
    )?;
    Ok(Answer {
        text,
        found: found_of(whole),
    })
}

/// The answer to the question for all outcomes. An error means out of memory.
fn outcomes_answer<P: Progress>(
    alloc: Global,
    program: &Checked<'_>,
    names: &Names,
    most: u32,
    progress: &mut P,
) -> Result<Answer, AllocError>
    ensures { IfOk result (λ a. TellsOutcomes names.now (program_of program.now.program.now) most a.text.items a.found) }
{
    let told = all_outcomes(alloc, program, most, progress)?;
    listed_answer(alloc, names, &told, told.whole)
}

/// The answer to the question for a run with the outcome at this place, counted from 1. An error means out of memory.
fn run_answer<P: Progress>(
    alloc: Global,
    program: &Checked<'_>,
    names: &Names,
    place: u32,
    most: u32,
    progress: &mut P,
) -> Result<Answer, AllocError>
    ensures { IfOk result (λ a. ShowsRun names.now (program_of program.now.program.now) place most a.text.items a.found) }
{
    match outcome_run(alloc, program, most, place.saturating_sub(1), progress) {
        Ok(OutcomeRun::Shown { outcome, labels }) => {
            shown_answer(alloc, names, outcome.kind, &labels)
        }
        Ok(OutcomeRun::Finite(count)) => finite_answer(alloc, count, Found::Missing),
        Ok(OutcomeRun::Over { kept, cause }) => over_answer(alloc, names, kept, &cause),
        Err(_) => Err(AllocError),
    }
}

/// The answer for outcomes that are all allowed: the list of them, or that no run ends, if the list is complete and empty
/// and the program may not run on. An error means out of memory.
fn allowed_answer(
    alloc: Global,
    names: &Names,
    told: &Outcomes,
    may_run_on: bool,
) -> Result<Answer, AllocError>
    ensures { IfOk result (λ a. TellsAllowed names.now told.now.list.items told.now.whole told.now.kept told.now.cause may_run_on a.text.items a.found) }
{
    if may_run_on {
        return listed_answer(alloc, names, told, told.whole);
    }
    if told.whole {
        if told.list.is_empty() {
            return running_answer(alloc, told.kept);
        }
        return listed_answer(alloc, names, told, true);
    }
    listed_answer(alloc, names, told, false)
}

/// The answer to the question whether each run that comes to its end has an outcome that is allowed, and some run ends,
/// unless the program may run on. An error means out of memory.
fn ends_answer<P: Progress>(
    alloc: Global,
    program: &Checked<'_>,
    names: &Names,
    allowed: &[String],
    may_run_on: bool,
    most: u32,
    progress: &mut P,
) -> Result<Answer, AllocError>
    ensures { IfOk result (λ a. GradesEnds names.now (program_of program.now.program.now) (map string_bytes allowed.now) may_run_on most a.text.items a.found) }
{
    let told = all_outcomes(alloc, program, most, progress)?;
    let Some(place) = first_wrong(alloc, names, allowed, &told.list)? else {
        return allowed_answer(alloc, names, &told, may_run_on);
    };
    if let OutcomeRun::Shown { outcome, labels } = outcome_run(
        alloc, program, most, place, progress,
    )? {
        if !is_allowed(alloc, names, allowed, &outcome)? {
            return wrong_answer(alloc, names, &outcome, &labels);
        }
    }
    listed_answer(alloc, names, &told, false)
}

/// The answer to the question whether each run that comes to its end has an outcome that is allowed, some run ends,
/// unless the program may run on, and no run leads to a dead object or a run-time error. If the list of outcomes may not
/// be complete, such a run is shown all the same. An error means out of memory.
fn graded_answer<P: Progress>(
    alloc: Global,
    program: &Checked<'_>,
    names: &Names,
    allowed: &[String],
    may_run_on: bool,
    most: u32,
    progress: &mut P,
) -> Result<Answer, AllocError>
    ensures { IfOk result (λ a. Grades names.now (program_of program.now.program.now) (map string_bytes allowed.now) may_run_on most a.text.items a.found) }
{
    let ends = ends_answer(alloc, program, names, allowed, may_run_on, most, progress)?;
    if let Found::Shown = ends.found {
        return Ok(ends);
    }
    let query = Query {
        wanted: Target::Both,
        all: false,
        most,
    };
    let wrong = sought_answer(alloc, program, names, &query, progress)?;
    if let Found::Finite = wrong.found {
        return Ok(ends);
    }
    if let Found::Over = ends.found {
        if let Found::Over = wrong.found {
            return Ok(ends);
        }
    }
    Ok(wrong)
}

/// Searches the program, and returns the answer. An error means out of memory, or that a limit would be exceeded. An
/// object has at most 1,000,000 methods under way. Messages, and the parts of the kept configurations in all, have
/// numbers of 32 bits.
pub fn answer_of<P: Progress>(
    alloc: Global,
    program: &Checked<'_>,
    names: &Names,
    question: &Question<'_>,
    progress: &mut P,
) -> Result<Answer, AllocError>
    ensures { IfOk result (λ a. IsAnswerTo names.now (program_of program.now.program.now) (inquiry question.now) a.text.items a.found) }
{
    match question {
        Question::Sought(query) => sought_answer(alloc, program, names, query, progress),
        Question::Outcomes { most } => outcomes_answer(alloc, program, names, *most, progress),
        Question::Run { place, most } => run_answer(alloc, program, names, *place, *most, progress),
        Question::Graded {
            allowed,
            may_run_on,
            most,
        } => graded_answer(alloc, program, names, allowed, *may_run_on, *most, progress),
    }
}
