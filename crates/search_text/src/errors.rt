//! The lines of the run-time errors of a run.
ghost use Rattle.std.specs.Prelude.{◌≡◌, List, ◌++◌, OnOk};
ghost use Rattle.run_types.specs.declared.types.Label.{Label as OneLabel};
ghost use Rattle.label_list.specs.Parts.{labels_of};
ghost use Rattle.record_writer.specs.RecordText.{label_words, led};
ghost use Rattle.search_text.specs.AnswerText.{error_line, errors_text, is_error};

use label_list::{LabelList, Part};
use record_writer::push_label;
use run_types::{Label, Names};
use std::alloc::AllocError;

/// Whether the label is a run-time error.
fn is_error(label: &Label) -> bool
    ensures { result ≡ is_error label.now }
{
    match label {
        Label::Fault { .. } => true,
        _ => false,
    }
}

/// Appends the line of a run-time error.
fn push_error_line(text: &mut Vec<u8>, names: &Names, label: &Label) -> Result<(), AllocError>
    ensures { OnOk result (text.new.items ≡ text.old.items ++ error_line names.now label.now) }
{
    text.extend_from_slice(b"met")?;
    push_label(text, names, label, 1)?;
    text.extend_from_slice(b"\n")
}

/// Appends the line of the part, if it is a run-time error.
fn push_error(text: &mut Vec<u8>, names: &Names, part: &Part) -> Result<(), AllocError>
    ensures { OnOk result ((rest : List OneLabel) → text.new.items ++ errors_text names.now rest ≡ text.old.items ++ errors_text names.now (labels_of part.now ++ rest)) }
{
    let label = part.label();
    if !is_error(&label) {
        return Ok(());
    }
    push_error_line(text, names, &label)
}

/// Appends the lines of the run-time errors of a run.
pub fn push_errors(text: &mut Vec<u8>, names: &Names, labels: &LabelList) -> Result<(), AllocError>
    ensures { OnOk result (text.new.items ≡ text.old.items ++ errors_text names.now labels.now) }
{
    for part in labels.parts() {
        push_error(text, names, part)?;
    }
    Ok(())
}
