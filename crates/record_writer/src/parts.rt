//! Values, names, errors and written items of a line.
ghost use Rattle.std.specs.Prelude.{◌≡◌, ◌+◌, ◌*◌, ◌<◌, ◌≤◌, [], ◌∷◌, ◌++◌, length, map};
ghost use Rattle.arrayvec.specs.ArrayVec.{array_vec_len};
ghost use Rattle.record_writer.specs.RecordText.{error_text, item_text, led, text_at, value_text};
ghost use Rattle.record_writer.specs.PlainTexts.{bare_text};
ghost use Rattle.record_writer.specs.Writable.{AreShort, IsShort, id_of_item};

use crate::text::{LineText, put, put_integer, put_object, put_word};
use run_types::{Args, Error, Item, NameId, Names, Value};

/// Appends a space and a value, at most 21 bytes.
pub fn put_value(text: &mut LineText, value: Value)
    requires { array_vec_len text.old ≤ 491 }
    ensures items { text.new.items ≡ text.old.items ++ led (value_text value ∷ []) }
    ensures size { array_vec_len text.new ≤ array_vec_len text.old + 21 }
{
    match value {
        Value::Int(number) => put_integer(text, number),
        Value::Bool(true) => put_word(text, b"true"),
        Value::Bool(false) => put_word(text, b"false"),
        Value::Ref(object) => put_object(text, object),
        Value::Nil => put_word(text, b"nil"),
    }
}

/// Appends a space and a value for each argument, at most 168 bytes.
pub fn put_args(text: &mut LineText, args: &Args)
    requires { array_vec_len text.old ≤ 344 }
    ensures items { text.new.items ≡ text.old.items ++ led (map value_text args.now) }
    ensures size { array_vec_len text.new ≤ array_vec_len text.old + 168 }
{
    let values = args.values();
    for place in 0..args.len() {
        put_value(text, values[place]);
    }
}

/// Appends a space and the text of a name. Requires a text of at most 256 bytes.
pub fn put_name(text: &mut LineText, names: &Names, id: NameId)
    requires room { array_vec_len text.old ≤ 255 }
    requires short { IsShort names.now id }
    ensures items { text.new.items ≡ text.old.items ++ led (text_at names.now id ∷ []) }
    ensures size { array_vec_len text.new ≤ array_vec_len text.old + 257 }
{
    put_word(text, names.text(id));
}

/// Appends a space and a text in quotes.
fn put_string(text: &mut LineText, names: &Names, id: NameId)
    requires room { array_vec_len text.old ≤ 253 }
    requires short { IsShort names.now id }
    ensures items { text.new.items ≡ text.old.items ++ led ((34 ∷ (text_at names.now id ++ 34 ∷ [])) ∷ []) }
    ensures size { array_vec_len text.new ≤ array_vec_len text.old + 259 }
{
    put(text, b" \"");
    put(text, names.text(id));
    put(text, b"\"");
}

/// Appends a space and a written item, a string in quotes. Requires a text of at most 256 bytes.
pub fn put_item(text: &mut LineText, names: &Names, item: Item)
    requires room { array_vec_len text.old ≤ 253 }
    requires short { AreShort names.now (id_of_item item) }
    ensures items { text.new.items ≡ text.old.items ++ led (item_text names.now item ∷ []) }
    ensures size { array_vec_len text.new ≤ array_vec_len text.old + 259 }
{
    match item {
        Item::Value(value) => put_value(text, value),
        Item::Text(id) => put_string(text, names, id),
    }
}

/// Appends a space and a written item, a string without quotes. Requires a text of at most 256 bytes.
pub fn put_bare(text: &mut LineText, names: &Names, item: Item)
    requires room { array_vec_len text.old ≤ 253 }
    requires short { AreShort names.now (id_of_item item) }
    ensures items { text.new.items ≡ text.old.items ++ led (bare_text names.now item ∷ []) }
    ensures size { array_vec_len text.new ≤ array_vec_len text.old + 257 }
{
    match item {
        Item::Value(value) => put_value(text, value),
        Item::Text(id) => put_name(text, names, id),
    }
}

/// Appends a space and the name of a run-time error, at most 15 bytes.
pub fn put_error(text: &mut LineText, error: Error)
    requires { array_vec_len text.old ≤ 496 }
    ensures items { text.new.items ≡ text.old.items ++ led (error_text error ∷ []) }
    ensures size { array_vec_len text.new ≤ array_vec_len text.old + 15 }
{
    match error {
        Error::NilDestination => put_word(text, b"NilDestination"),
        Error::NilOperand => put_word(text, b"NilOperand"),
        Error::Overflow => put_word(text, b"Overflow"),
        Error::ZeroDivisor => put_word(text, b"ZeroDivisor"),
        Error::NoOpenGuard => put_word(text, b"NoOpenGuard"),
    }
}
