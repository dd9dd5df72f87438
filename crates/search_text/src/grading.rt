//! Grading: which outcomes are allowed, given the outputs that a program may write.
ghost use Rattle.std.specs.Prelude.{◌≡◌, List, map, string_bytes, IfOk, IfNone, true};
ghost use Rattle.run_types.specs.Tables.{Each};
ghost use Rattle.text_scan.specs.Text.{Text};
ghost use Rattle.record_writer.specs.RecordText.{joined, led};
ghost use Rattle.search_text.specs.Grading.{ends_well, is_allowed, is_one_of};

use crate::answer::push_items;
use pool_search::{EndKind, Outcome};
use run_types::Names;
use std::alloc::{AllocError, Global};

/// Whether no object has met an error or is in a call at an end of this kind.
fn ends_well(kind: EndKind) -> bool
    ensures { result ≡ ends_well kind }
{
    match kind {
        EndKind::Fault | EndKind::Stuck => false,
        EndKind::Left | EndKind::Done => true,
    }
}

/// Words that each follow a space, without the first space.
fn without_first_space(text: &[u8]) -> &[u8]
    ensures { (words : List Text) → text.now ≡ led words → result.now ≡ joined words }
{
    match text.split_first() {
        Some((_, rest)) => rest,
        None => text,
    }
}

/// Whether the text is one of the words.
fn is_one_of(text: &[u8], words: &[String]) -> bool
    ensures { result ≡ is_one_of text.now (map string_bytes words.now) }
{
    for word in words {
        if text == word.as_bytes() {
            return true;
        }
    }
    false
}

/// Whether the outcome ends well and has one of these outputs. An error means out of memory.
pub fn is_allowed(
    alloc: Global,
    names: &Names,
    allowed: &[String],
    outcome: &Outcome,
) -> Result<bool, AllocError>
    ensures { IfOk result (λ b. b ≡ is_allowed (map string_bytes allowed.now) names.now outcome.now) }
{
    if !ends_well(outcome.kind) {
        return Ok(false);
    }
    let mut text = Vec::new(alloc);
    push_items(&mut text, names, &outcome.items)?;
    Ok(is_one_of(without_first_space(&text), allowed))
}

/// The index of the first outcome that is not allowed, or 2^32 - 1 if it is greater. None if all are allowed. No proof
/// depends on the index: the outcome there is judged again. An error means out of memory.
pub fn first_wrong(
    alloc: Global,
    names: &Names,
    allowed: &[String],
    list: &[Outcome],
) -> Result<Option<u32>, AllocError>
    ensures { IfOk result (λ r. IfNone r (Each (λ o. is_allowed (map string_bytes allowed.now) names.now o ≡ true) list.now)) }
{
    for (place, outcome) in list.iter().enumerate() {
        if !is_allowed(alloc, names, allowed, outcome)? {
            return Ok(Some(u32::try_from(place).unwrap_or(u32::MAX)));
        }
    }
    Ok(None)
}
