//! Appends a transition to a text, in the words of a record.
ghost use Rattle.std.specs.Prelude.{◌≡◌, [], ◌∷◌, ◌++◌, OnOk, map};
ghost use Rattle.record_writer.specs.RecordText.{label_words, led, object_text, text_at, value_text};

use crate::words::{
    push_args, push_count, push_error, push_item, push_name, push_number, push_object, push_value,
    push_word,
};
use run_types::{Args, Label, NameId, Names};
use std::alloc::AllocError;

/// Appends a keyword and the names of two objects. An error means out of memory.
pub fn push_pair(text: &mut Vec<u8>, word: &[u8], one: u32, other: u32) -> Result<(), AllocError>
    ensures { OnOk result (text.new.items ≡ text.old.items ++ led (word.now ∷ object_text one ∷ object_text other ∷ [])) }
{
    push_word(text, word)?;
    push_object(text, one)?;
    push_object(text, other)
}

/// Appends a message: a keyword, the names of two objects, a method and its arguments. An error means out of memory.
pub fn push_message(
    text: &mut Vec<u8>,
    names: &Names,
    word: &[u8],
    one: u32,
    other: u32,
    method: NameId,
    args: &Args,
) -> Result<(), AllocError>
    ensures { OnOk result (text.new.items ≡ text.old.items ++ led (word.now ∷ object_text one ∷ object_text other ∷ text_at names.now method ∷ map value_text args.now)) }
{
    push_pair(text, word, one, other)?;
    push_name(text, names, method)?;
    push_args(text, args)
}

/// Appends a keyword and the name of an object. An error means out of memory.
pub fn push_about(text: &mut Vec<u8>, word: &[u8], object: u32) -> Result<(), AllocError>
    ensures { OnOk result (text.new.items ≡ text.old.items ++ led (word.now ∷ object_text object ∷ [])) }
{
    push_word(text, word)?;
    push_object(text, object)
}

/// Appends a transition in the words of a record. Only a local one has `times`, the number of times that it is made,
/// after these words. An error means out of memory.
pub fn push_label(
    text: &mut Vec<u8>,
    names: &Names,
    label: &Label,
    times: usize,
) -> Result<(), AllocError>
    ensures { OnOk result (text.new.items ≡ text.old.items ++ led (label_words names.now label.now times)) }
{
    match label {
        Label::Local { object } => {
            push_about(text, b"local", *object)?;
            push_count(text, times)
        }
        Label::New {
            object,
            name,
            class,
        } => {
            push_pair(text, b"new", *object, *name)?;
            push_name(text, names, *class)
        }
        Label::Answer {
            receiver,
            caller,
            method,
            args,
        } => push_message(text, names, b"answer", *receiver, *caller, *method, args),
        Label::Return {
            receiver,
            caller,
            value,
        } => {
            push_pair(text, b"return", *receiver, *caller)?;
            push_value(text, *value)
        }
        Label::Send {
            object,
            receiver,
            method,
            args,
        } => push_message(text, names, b"send", *object, *receiver, *method, args),
        Label::Take {
            receiver,
            sender,
            method,
            args,
        } => push_message(text, names, b"take", *receiver, *sender, *method, args),
        Label::Write { object, item } => {
            push_about(text, b"write", *object)?;
            push_item(text, names, *item)
        }
        Label::Pick { object, alt } => {
            push_about(text, b"pick", *object)?;
            push_number(text, *alt)
        }
        Label::Fault { object, error } => {
            push_about(text, b"fault", *object)?;
            push_error(text, *error)
        }
    }
}
