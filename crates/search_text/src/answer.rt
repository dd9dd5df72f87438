//! The answers of a search, by what it found.
ghost use Rattle.std.specs.Prelude.{◌≡◌, ◌++◌, map, IfOk, OnOk};
ghost use Rattle.record_writer.specs.RecordText.{item_text, led};
ghost use Rattle.search_text.specs.AnswerText.{end_line, fault_text, ending, finite_text, kind_word, outcome_line, outcomes_text, over_text, run_text, running_text, stuck_text, wrong_text};
ghost use Rattle.search_text.specs.declared.answers.Found.TheVariants as O;
ghost use Rattle.wait_report.specs.Calls.{names_of, Rising};

use crate::answers::{Answer, Found};
use crate::causes::push_cause;
use crate::errors::push_errors;
use crate::steps::{other_than_local, push_steps};
use label_list::LabelList;
use pool_search::{Cause, EndKind, Outcome};
use record_writer::{push_count, push_item, push_word};
use run_types::{Item, Names};
use std::alloc::{AllocError, Global};
use wait_report::{ObjectRow, put_each_cycle};
use waiting_objects::push_waiting;

/// Appends the end line, with its keyword and its number.
fn push_end(text: &mut Vec<u8>, word: &[u8], count: usize) -> Result<(), AllocError>
    ensures { OnOk result (text.new.items ≡ text.old.items ++ end_line word.now count) }
{
    put!(text.extend_from_slice(b"end"));
    put!(push_word(text, word));
    put!(push_count(text, count));
    text.extend_from_slice(b"\n")
}

/// Appends why the search does not know the answer, and the end line.
fn push_over(
    text: &mut Vec<u8>,
    names: &Names,
    kept: usize,
    cause: &Cause,
) -> Result<(), AllocError>
    ensures { OnOk result (text.new.items ≡ text.old.items ++ over_text names.now kept cause.now) }
{
    put!(push_cause(text, names, cause));
    push_end(text, b"over", kept)
}

/// The answer for a run that gets stuck: its steps, the errors that were met in it, the objects that wait at its end, the
/// cycles of calls, and the end line. Requires rows with rising names. An error means out of memory.
pub fn waiting_answer(
    alloc: Global,
    names: &Names,
    labels: &LabelList,
    rows: &[ObjectRow],
) -> Result<Answer, AllocError>
    requires { Rising (names_of rows.now) }
    ensures { IfOk result (λ a. (a.text.items ≡ stuck_text names.now labels.now rows.now) × (a.found ≡ O.Shown)) }
{
    let mut text = Vec::new(alloc);
    put!(push_steps(&mut text, names, labels));
    put!(push_errors(&mut text, names, labels));
    put!(push_waiting(&mut text, names, rows));
    put!(put_each_cycle(alloc, &mut text, rows));
    put!(push_end(&mut text, b"stuck", other_than_local(labels)));
    Ok(Answer {
        text,
        found: Found::Shown,
    })
}

/// The answer for a run that meets a run-time error: its steps, and the end line. An error means out of memory.
pub fn fault_answer(alloc: Global, names: &Names, labels: &LabelList) -> Result<Answer, AllocError>
    ensures { IfOk result (λ a. (a.text.items ≡ fault_text names.now labels.now) × (a.found ≡ O.Shown)) }
{
    let mut text = Vec::new(alloc);
    put!(push_steps(&mut text, names, labels));
    put!(push_end(&mut text, b"fault", other_than_local(labels)));
    Ok(Answer {
        text,
        found: Found::Shown,
    })
}

/// The answer of a complete search that shows no run, with what it found. `kept` is
/// the number of configurations. An error means out of memory.
pub fn finite_answer(alloc: Global, kept: u32, found: Found) -> Result<Answer, AllocError>
    ensures { IfOk result (λ a. (a.text.items ≡ finite_text kept) × (a.found ≡ found)) }
{
    let mut text = Vec::new(alloc);
    put!(push_end(&mut text, b"finite", kept as usize));
    Ok(Answer { text, found })
}

/// The answer of a search that does not know. `kept` is the number of configurations. An error means out of memory.
pub fn over_answer(
    alloc: Global,
    names: &Names,
    kept: u32,
    cause: &Cause,
) -> Result<Answer, AllocError>
    ensures { IfOk result (λ a. (a.text.items ≡ over_text names.now kept cause.now) × (a.found ≡ O.Over)) }
{
    let mut text = Vec::new(alloc);
    put!(push_over(&mut text, names, kept as usize, cause));
    Ok(Answer {
        text,
        found: Found::Over,
    })
}

/// The answer of a complete search for outcomes that found none. `kept` is the number of configurations. An error means
/// out of memory.
pub fn running_answer(alloc: Global, kept: u32) -> Result<Answer, AllocError>
    ensures { IfOk result (λ a. (a.text.items ≡ running_text kept) × (a.found ≡ O.Running)) }
{
    let mut text = Vec::new(alloc);
    put!(push_end(&mut text, b"running", kept as usize));
    Ok(Answer {
        text,
        found: Found::Running,
    })
}

/// The word for the kind of an end.
fn kind_word(kind: EndKind) -> &'static [u8]
    ensures { result.now ≡ kind_word kind }
{
    match kind {
        EndKind::Fault => b"fault",
        EndKind::Stuck => b"stuck",
        EndKind::Left => b"left",
        EndKind::Done => b"done",
    }
}

/// Appends the items, each after a space. An error means out of memory.
pub fn push_items(text: &mut Vec<u8>, names: &Names, items: &[Item]) -> Result<(), AllocError>
    ensures { OnOk result (text.new.items ≡ text.old.items ++ led (map (item_text names.now) items.now)) }
{
    for item in items {
        put!(push_item(text, names, *item));
    }
    Ok(())
}

/// Appends the line of an outcome.
fn push_outcome(text: &mut Vec<u8>, names: &Names, outcome: &Outcome) -> Result<(), AllocError>
    ensures { OnOk result (text.new.items ≡ text.old.items ++ outcome_line names.now outcome.now) }
{
    put!(text.extend_from_slice(b"wrote"));
    put!(push_word(text, kind_word(outcome.kind)));
    put!(push_items(text, names, &outcome.items));
    text.extend_from_slice(b"\n")
}

/// Appends the end of a list of outcomes. `whole` tells whether the list is complete.
fn push_ending(
    text: &mut Vec<u8>,
    names: &Names,
    whole: bool,
    kept: usize,
    cause: &Cause,
) -> Result<(), AllocError>
    ensures { OnOk result (text.new.items ≡ text.old.items ++ ending names.now whole kept cause.now) }
{
    if whole {
        push_end(text, b"finite", kept)
    } else {
        push_over(text, names, kept, cause)
    }
}

/// The lines of these outcomes, and the end. `whole` tells whether there is no other outcome, and `cause` why that may not
/// be known. `kept` is the number of configurations. An error means out of memory.
pub fn outcomes_text(
    alloc: Global,
    names: &Names,
    list: &[Outcome],
    whole: bool,
    kept: usize,
    cause: &Cause,
) -> Result<Vec<u8>, AllocError>
    ensures { IfOk result (λ text. text.items ≡ outcomes_text names.now list.now ++ ending names.now whole kept cause.now) }
{
    let mut text = Vec::new(alloc);
    for outcome in list {
        put!(push_outcome(&mut text, names, outcome));
    }
    put!(push_ending(&mut text, names, whole, kept, cause));
    Ok(text)
}

/// The answer for a run that ends in this way: its steps, and the end line. An error means out of memory.
pub fn shown_answer(
    alloc: Global,
    names: &Names,
    kind: EndKind,
    labels: &LabelList,
) -> Result<Answer, AllocError>
    ensures { IfOk result (λ a. (a.text.items ≡ run_text names.now kind labels.now) × (a.found ≡ O.Run)) }
{
    let mut text = Vec::new(alloc);
    put!(push_steps(&mut text, names, labels));
    put!(push_end(&mut text, kind_word(kind), other_than_local(labels)));
    Ok(Answer {
        text,
        found: Found::Run,
    })
}

/// The answer for a run whose outcome is not allowed: its steps, the line of the outcome, and the end line. An error
/// means out of memory.
pub fn wrong_answer(
    alloc: Global,
    names: &Names,
    outcome: &Outcome,
    labels: &LabelList,
) -> Result<Answer, AllocError>
    ensures { IfOk result (λ a. (a.text.items ≡ wrong_text names.now outcome.now labels.now) × (a.found ≡ O.Shown)) }
{
    let mut text = Vec::new(alloc);
    put!(push_steps(&mut text, names, labels));
    put!(push_outcome(&mut text, names, outcome));
    put!(push_end(&mut text, kind_word(outcome.kind), other_than_local(labels)));
    Ok(Answer {
        text,
        found: Found::Shown,
    })
}
