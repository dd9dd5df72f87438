//! The lines of the steps of a run.
ghost use Rattle.std.specs.Prelude.{◌≡◌, ◌<◌, ℕ, List, [], ◌∷◌, ◌++◌, replicate, OnOk, map};
ghost use Rattle.run_types.specs.declared.types.Label.{Label as OneLabel};
ghost use Rattle.run_types.specs.declared.types.Label.TheVariants as L;
ghost use Rattle.label_list.specs.Parts.{labels_of};
ghost use Rattle.record_writer.specs.RecordText.{label_words, led};
ghost use Rattle.search_text.specs.AnswerText.{step_line, steps_text};
ghost use Rattle.search_text.specs.OpenSteps.{open_labels, text_from};
ghost use Rattle.search_text.specs.Steps.{local_of, other_than_local, steps};

use label_list::{LabelList, Part};
use record_writer::push_label;
use run_types::{Label, Names};
use std::alloc::AllocError;

/// Local transitions of one object whose line is not written yet.
#[derive(Clone, Copy)]
pub struct Locals {
    object: u32,
    times: usize,
}

/// Appends the line of a step.
fn push_step(
    text: &mut Vec<u8>,
    names: &Names,
    label: &Label,
    times: usize,
) -> Result<(), AllocError>
    ensures { OnOk result (text.new.items ≡ text.old.items ++ step_line names.now (label.now, times)) }
{
    text.extend_from_slice(b"step")?;
    push_label(text, names, label, times)?;
    text.extend_from_slice(b"\n")
}

/// The object of a local transition. None for other labels.
fn local_of(label: &Label) -> Option<u32>
    ensures { result ≡ local_of label.now }
{
    match label {
        Label::Local { object } => Some(*object),
        _ => None,
    }
}

/// Appends the line of these local transitions, if there are any.
fn push_locals(text: &mut Vec<u8>, names: &Names, locals: Locals) -> Result<(), AllocError>
    ensures { OnOk result (text.new.items ≡ text.old.items ++ steps_text names.now (steps (open_labels locals))) }
{
    if locals.times == 0 {
        return Ok(());
    }
    push_step(
        text,
        names,
        &Label::Local {
            object: locals.object,
        },
        locals.times,
    )
}

/// Appends the line of `locals` and empties them, if they are of another object. An error means out of memory.
fn turn_to(
    text: &mut Vec<u8>,
    names: &Names,
    locals: &mut Locals,
    object: u32,
) -> Result<(), AllocError>
    ensures object { OnOk result (locals.new.object ≡ object) }
    ensures text { OnOk result ((n : ℕ) (rest : List OneLabel) → 0 < n
        → text.new.items ++ text_from names.now locals.new (replicate n (L.Local object) ++ rest) ≡ text.old.items ++ text_from names.now locals.old (replicate n (L.Local object) ++ rest)) }
{
    if locals.object == object {
        return Ok(());
    }
    push_locals(text, names, *locals)?;
    *locals = Locals { object, times: 0 };
    Ok(())
}

/// Adds local transitions of an object to `locals`, after the line of those of another object. An error means out of
/// memory, or that 2^64 or more follow one another.
fn add_locals(
    text: &mut Vec<u8>,
    names: &Names,
    locals: &mut Locals,
    object: u32,
    times: u32,
) -> Result<(), AllocError>
    ensures { OnOk result ((rest : List OneLabel) → text.new.items ++ text_from names.now locals.new rest ≡ text.old.items ++ text_from names.now locals.old (replicate times (L.Local object) ++ rest)) }
{
    if times == 0 {
        return Ok(());
    }
    turn_to(text, names, locals, object)?;
    let Some(sum) = locals.times.checked_add(times as usize) else {
        return Err(AllocError);
    };
    locals.times = sum;
    Ok(())
}

/// Appends the lines of `locals` and of this part, or adds the part to `locals`. An error means what it means there.
fn push_part(
    text: &mut Vec<u8>,
    names: &Names,
    locals: &mut Locals,
    part: &Part,
) -> Result<(), AllocError>
    ensures { OnOk result ((rest : List OneLabel) → text.new.items ++ text_from names.now locals.new rest ≡ text.old.items ++ text_from names.now locals.old (labels_of part.now ++ rest)) }
{
    let label = part.label();
    if let Some(object) = local_of(&label) {
        return add_locals(text, names, locals, object, part.times());
    }
    push_locals(text, names, *locals)?;
    locals.times = 0;
    push_step(text, names, &label, 1)
}

/// Appends the lines of the steps of a run. Local transitions of one object in a row share a line. An error means out
/// of memory, or that 2^64 or more of them follow one another.
pub fn push_steps(text: &mut Vec<u8>, names: &Names, labels: &LabelList) -> Result<(), AllocError>
    ensures { OnOk result (text.new.items ≡ text.old.items ++ steps_text names.now (steps labels.now)) }
{
    let mut locals = Locals {
        object: 0,
        times: 0,
    };
    for part in labels.parts() {
        push_part(text, names, &mut locals, part)?;
    }
    push_locals(text, names, locals)
}

/// The number of labels that are not local transitions.
pub fn other_than_local(labels: &LabelList) -> usize
    ensures { result ≡ other_than_local labels.now }
{
    let mut count = 0;
    for part in labels.parts() {
        if local_of(&part.label()).is_none() {
            count += 1;
        }
    }
    count
}
