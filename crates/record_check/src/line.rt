//! The text line of a verdict.
ghost use Rattle.std.specs.Prelude.{◌≡◌, [], ◌∷◌, ◌++◌, IfOk, OnOk, codes, map};
ghost use Rattle.record_writer.specs.RecordText.{led, object_text, text_at, value_text};
ghost use Rattle.record_check.specs.VerdictText.{redex_words, verdict_text, verdict_words};

use record_writer::{
    push_args, push_error, push_item, push_name, push_number, push_object, push_value, push_word,
};
use run_types::{Args, NameId, Names, Redex, Verdict};
use std::alloc::{AllocError, Global};

/// Appends a message: its keyword, the receiver, the method and the arguments.
fn push_message(
    text: &mut Vec<u8>,
    word: &[u8],
    to: u32,
    names: &Names,
    method: NameId,
    args: &Args,
) -> Result<(), AllocError>
    ensures { OnOk result (text.new.items ≡ text.old.items ++ led (word.now ∷ (object_text to ∷ (text_at names.now method ∷ map value_text args.now)))) }
{
    push_word(text, word)?;
    push_object(text, to)?;
    push_name(text, names, method)?;
    push_args(text, args)
}

/// Appends a redex.
fn push_redex(text: &mut Vec<u8>, names: &Names, redex: &Redex) -> Result<(), AllocError>
    ensures { OnOk result (text.new.items ≡ text.old.items ++ led (redex_words names.now redex.now)) }
{
    match redex {
        Redex::NoObject => push_word(text, b"none"),
        Redex::Finished => push_word(text, b"finished"),
        Redex::Faulted => push_word(text, b"faulted"),
        Redex::Local => push_word(text, b"local"),
        Redex::New { class } => {
            push_word(text, b"new")?;
            push_name(text, names, *class)
        }
        Redex::Send { to, method, args } => {
            push_message(text, b"send", *to, names, *method, args)
        }
        Redex::Async { to, method, args } => {
            push_message(text, b"async", *to, names, *method, args)
        }
        Redex::Write { item } => {
            push_word(text, b"write")?;
            push_item(text, names, *item)
        }
        Redex::Answer => push_word(text, b"answer"),
        Redex::Select => push_word(text, b"select"),
        Redex::Return { value } => {
            push_word(text, b"return")?;
            push_value(text, *value)
        }
        Redex::Waits { on } => {
            push_word(text, b"waits")?;
            push_object(text, *on)
        }
        Redex::Fault { error } => {
            push_word(text, b"fault")?;
            push_error(text, *error)
        }
    }
}

/// Returns the line of a verdict, with its line feed. `names` are the names of the program.
/// The line is `yes`, or `no` with the number of the impossible line and the redex of its object,
/// or `no end` with the object that can still make a transition. An error means out of memory.
pub fn verdict_line(alloc: Global, verdict: &Verdict, names: &Names) -> Result<Vec<u8>, AllocError>
    ensures { IfOk result (λ line. line.items ≡ verdict_text names.now verdict.now) }
{
    let mut text = Vec::new(alloc);
    match verdict {
        Verdict::Yes => text.extend_from_slice(b"yes")?,
        Verdict::No { number, redex } => {
            text.extend_from_slice(b"no")?;
            push_number(&mut text, *number)?;
            push_redex(&mut text, names, redex)?;
        }
        Verdict::Moving { object } => {
            text.extend_from_slice(b"no")?;
            push_word(&mut text, b"end")?;
            push_object(&mut text, *object)?;
        }
    }
    text.extend_from_slice(b"\n")?;
    Ok(text)
}
