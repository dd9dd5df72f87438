//! The statement under evaluation, and those after it.
ghost use Rattle.std.specs.Prelude.{◌≡◌, ◌++◌, ◌∷◌, [], OnOk};
ghost use Rattle.pool_syntax.specs.TreeOf.{statements_of};
ghost use Rattle.stepper_terms.specs.Parts.{left, segment};
ghost use Rattle.term_text.specs.Marked.{boxed};
ghost use Rattle.term_text.specs.Words.{braced, more_statements};
ghost use Rattle.stepper_text.specs.Contents.{ready_text, running_text, slot_after, slot_before, slot_rest, task_text};
ghost use Rattle.stepper_text.specs.Around.{afters, befores, nested_level};

use crate::places::{nested_level, push_afters, push_befores};
use crate::redex::{push_loop, push_ready, push_task};
use crate::slots::{push_slot_after, push_slot_before};
use record_writer::{push_name, push_word};
use run_types::{NameId, Names};
use std::alloc::AllocError;
use stepper_terms::contexts::{ExpressionContext, Ready, Segment, StatementContext, Task};
use term_text::{push_mark, push_more_statements, push_unmark};

/// Appends the name of a method under way in braces.
pub fn push_braced(text: &mut Vec<u8>, names: &Names, method: NameId) -> Result<(), AllocError>
    ensures { OnOk result (text.new.items ≡ text.old.items ++ braced names.now method.0) }
{
    put!(push_word(text, b"{"));
    put!(push_name(text, names, method));
    push_word(text, b"}")
}

/// Appends statements that follow.
fn push_segment(text: &mut Vec<u8>, names: &Names, part: &Segment<'_>) -> Result<(), AllocError>
    ensures { OnOk result (text.new.items ≡ text.old.items ++ more_statements names.now (segment part.now)) }
{
    match part {
        Segment::Rest(stmts) => push_more_statements(text, names, stmts),
        Segment::Again { cond, body } => {
            put!(push_word(text, b";"));
            push_loop(text, names, cond, body)
        }
    }
}

/// Appends all statements that follow, the last segment first.
pub fn push_segments(
    text: &mut Vec<u8>,
    names: &Names,
    segments: &[Segment<'_>],
) -> Result<(), AllocError>
    ensures { OnOk result (text.new.items ≡ text.old.items ++ more_statements names.now (left segments.now)) }
{
    for i in (0..segments.len()).rev() {
        put!(push_segment(text, names, &segments[i]));
    }
    Ok(())
}

/// Appends the statements after a statement under evaluation.
fn push_slot_rest(
    text: &mut Vec<u8>,
    names: &Names,
    slot: &StatementContext<'_>,
    rest: &[Segment<'_>],
) -> Result<(), AllocError>
    ensures { OnOk result (text.new.items ≡ text.old.items ++ slot_rest names.now slot.now (left rest.now)) }
{
    match slot {
        StatementContext::Value => Ok(()),
        _ => push_segments(text, names, rest),
    }
}

/// Appends the text before the redex, or before a method under way.
fn push_front(
    text: &mut Vec<u8>,
    names: &Names,
    slot: &StatementContext<'_>,
    places: &[ExpressionContext<'_>],
) -> Result<(), AllocError>
    ensures { OnOk result (text.new.items ≡ text.old.items ++ (slot_before names.now slot.now (nested_level places.now 8) ++ befores names.now places.now 8)) }
{
    put!(push_slot_before(text, names, slot, nested_level(places, 8)));
    push_befores(text, names, places, 8)
}

/// Appends the text after it.
fn push_back(
    text: &mut Vec<u8>,
    names: &Names,
    slot: &StatementContext<'_>,
    places: &[ExpressionContext<'_>],
    rest: &[Segment<'_>],
) -> Result<(), AllocError>
    ensures { OnOk result (text.new.items ≡ text.old.items
        ++ (afters names.now places.now 8 ++ (slot_after names.now slot.now (nested_level places.now 8) ++ slot_rest names.now slot.now (left rest.now)))) }
{
    put!(push_afters(text, names, places, 8));
    put!(push_slot_after(text, names, slot, nested_level(places, 8)));
    push_slot_rest(text, names, slot, rest)
}

/// Appends a statement with the redex in it, and the statements after it.
pub fn push_running(
    text: &mut Vec<u8>,
    names: &Names,
    slot: &StatementContext<'_>,
    places: &[ExpressionContext<'_>],
    redex: &Ready,
    rest: &[Segment<'_>],
) -> Result<(), AllocError>
    ensures { OnOk result (text.new.items ≡ text.old.items ++ running_text names.now slot.now places.now (boxed (ready_text names.now redex.now)) (left rest.now)) }
{
    put!(push_front(text, names, slot, places));
    put!(push_mark(text));
    put!(push_ready(text, names, redex));
    put!(push_unmark(text));
    push_back(text, names, slot, places, rest)
}

/// Appends a statement with a method under way in it, and the statements after it.
pub fn push_within(
    text: &mut Vec<u8>,
    names: &Names,
    slot: &StatementContext<'_>,
    places: &[ExpressionContext<'_>],
    method: NameId,
    rest: &[Segment<'_>],
) -> Result<(), AllocError>
    ensures { OnOk result (text.new.items ≡ text.old.items ++ running_text names.now slot.now places.now (braced names.now method.0) (left rest.now)) }
{
    put!(push_front(text, names, slot, places));
    put!(push_braced(text, names, method));
    push_back(text, names, slot, places, rest)
}

/// Appends the statement that is the redex in brackets, and the statements after it.
pub fn push_next(
    text: &mut Vec<u8>,
    names: &Names,
    task: &Task<'_>,
    rest: &[Segment<'_>],
) -> Result<(), AllocError>
    ensures { OnOk result (text.new.items ≡ text.old.items ++ (boxed (task_text names.now task.now) ++ more_statements names.now (left rest.now))) }
{
    put!(push_mark(text));
    put!(push_task(text, names, task));
    put!(push_unmark(text));
    push_segments(text, names, rest)
}
