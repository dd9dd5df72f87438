//! The content of a line: the step or delay that it shows.
ghost use Rattle.std.specs.Prelude.{◌≡◌, ◌+◌, ◌<◌, ◌≤◌, [], ◌∷◌, ◌++◌, length, decimal, map};
ghost use Rattle.arrayvec.specs.ArrayVec.{array_vec_len};
ghost use Rattle.record_writer.specs.RecordText.{label_words, led, object_text, text_at, value_text, what_words};
ghost use Rattle.record_writer.specs.Writable.{AreShort, IsShort, id_of_label, id_of_what};

use crate::parts::{put_args, put_error, put_item, put_name, put_value};
use crate::text::{LineText, put_number, put_object, put_word};
use run_types::{Args, Label, NameId, Names, What};

/// Appends a word and the names of two objects.
fn put_pair(text: &mut LineText, word: &[u8], one: u32, other: u32)
    requires room { array_vec_len text.old ≤ 50 }
    requires short { length word.now ≤ 7 }
    ensures items { text.new.items ≡ text.old.items ++ led (word.now ∷ object_text one ∷ object_text other ∷ []) }
    ensures size { array_vec_len text.new ≤ array_vec_len text.old + length word.now + 25 }
{
    put_word(text, word);
    put_object(text, one);
    put_object(text, other);
}

/// Appends a message: a word, the names of two objects, a method and its arguments.
fn put_message(
    text: &mut LineText,
    names: &Names,
    word: &[u8],
    one: u32,
    other: u32,
    method: NameId,
    args: &Args,
)
    requires room { array_vec_len text.old ≤ 50 }
    requires short { length word.now ≤ 7 }
    requires known { IsShort names.now method }
    ensures items { text.new.items ≡ text.old.items ++ led (word.now ∷ object_text one ∷ object_text other ∷ text_at names.now method ∷ map value_text args.now) }
    ensures size { array_vec_len text.new ≤ array_vec_len text.old + length word.now + 450 }
{
    put_pair(text, word, one, other);
    put_name(text, names, method);
    put_args(text, args);
}

/// Appends a word and the name of an object.
fn put_about(text: &mut LineText, word: &[u8], object: u32)
    requires room { array_vec_len text.old ≤ 50 }
    requires short { length word.now ≤ 7 }
    ensures items { text.new.items ≡ text.old.items ++ led (word.now ∷ object_text object ∷ []) }
    ensures size { array_vec_len text.new ≤ array_vec_len text.old + 20 }
{
    put_word(text, word);
    put_object(text, object);
}

/// Appends a word and the number of a frame.
fn put_numbered(text: &mut LineText, word: &[u8], number: u32)
    requires room { array_vec_len text.old ≤ 50 }
    requires short { length word.now ≤ 7 }
    ensures items { text.new.items ≡ text.old.items ++ led (word.now ∷ decimal number ∷ []) }
    ensures size { array_vec_len text.new ≤ array_vec_len text.old + 20 }
{
    put_word(text, word);
    put_number(text, number);
}

/// Appends a transition.
fn put_label(text: &mut LineText, names: &Names, label: &Label, times: u32)
    requires room { array_vec_len text.old ≤ 42 }
    requires known { AreShort names.now (id_of_label label.now) }
    ensures items { text.new.items ≡ text.old.items ++ led (label_words names.now label.now times) }
    ensures size { array_vec_len text.new ≤ array_vec_len text.old + 457 }
{
    match label {
        Label::Local { object } => {
            put_about(text, b"local", *object);
            put_number(text, times);
        }
        Label::New {
            object,
            name,
            class,
        } => {
            put_pair(text, b"new", *object, *name);
            put_name(text, names, *class);
        }
        Label::Answer {
            receiver,
            caller,
            method,
            args,
        } => put_message(text, names, b"answer", *receiver, *caller, *method, args),
        Label::Return {
            receiver,
            caller,
            value,
        } => {
            put_pair(text, b"return", *receiver, *caller);
            put_value(text, *value);
        }
        Label::Send {
            object,
            receiver,
            method,
            args,
        } => put_message(text, names, b"send", *object, *receiver, *method, args),
        Label::Take {
            receiver,
            sender,
            method,
            args,
        } => put_message(text, names, b"take", *receiver, *sender, *method, args),
        Label::Write { object, item } => {
            put_about(text, b"write", *object);
            put_item(text, names, *item);
        }
        Label::Pick { object, alt } => {
            put_about(text, b"pick", *object);
            put_number(text, *alt);
        }
        Label::Fault { object, error } => {
            put_about(text, b"fault", *object);
            put_error(text, *error);
        }
    }
}

/// Appends the content of a line, at most 459 bytes. Requires a short name, and at most 42 bytes before it.
pub fn put_what(text: &mut LineText, names: &Names, what: &What)
    requires room { array_vec_len text.old ≤ 42 }
    requires known { AreShort names.now (id_of_what what.now) }
    ensures items { text.new.items ≡ text.old.items ++ led (what_words names.now what.now) }
    ensures size { array_vec_len text.new ≤ array_vec_len text.old + 459 }
{
    match what {
        What::Step { label, times } => put_label(text, names, label, *times),
        What::PostCreate {
            object,
            class,
            node,
        } => {
            put_word(text, b"post");
            put_about(text, b"create", *object);
            put_name(text, names, *class);
            put_number(text, *node);
        }
        What::PostCall {
            object,
            receiver,
            method,
            args,
        } => {
            put_word(text, b"post");
            put_message(text, names, b"call", *object, *receiver, *method, args);
        }
        What::Arrive {
            object,
            receiver,
            method,
        } => {
            put_pair(text, b"arrive", *object, *receiver);
            put_name(text, names, *method);
        }
        What::Created { object, name } => put_pair(text, b"created", *object, *name),
        What::Result { object, value } => {
            put_about(text, b"result", *object);
            put_value(text, *value);
        }
        What::Pass => put_word(text, b"pass"),
        What::Idle => put_word(text, b"idle"),
        What::Frame { number } => put_numbered(text, b"frame", *number),
        What::Lost { number } => put_numbered(text, b"lost", *number),
        What::Stale { number } => put_numbered(text, b"stale", *number),
        What::Acked { number } => put_numbered(text, b"acked", *number),
        What::Late { number } => put_numbered(text, b"late", *number),
    }
}
