//! The words of a line, each after a space, in a text that may grow. Each function returns `Err` if memory runs out.
ghost use Rattle.std.specs.Prelude.{◌≡◌, ◌<◌, [], ◌∷◌, ◌++◌, OnOk, decimal, length, map};
ghost use Rattle.std.specs.Fmt.{signed_decimal};
ghost use Rattle.record_writer.specs.RecordText.{error_text, item_text, led, object_text, text_at, value_text};

use itoa::Buffer;
use run_types::{Args, Error, Item, NameId, Names, Value, node_of, slot_of};
use std::alloc::AllocError;

/// Appends a space and a word.
pub fn push_word(text: &mut Vec<u8>, word: &[u8]) -> Result<(), AllocError>
    ensures { OnOk result (text.new.items ≡ text.old.items ++ led (word.now ∷ [])) }
{
    text.extend_from_slice(b" ")?;
    text.extend_from_slice(word)?;
    Ok(())
}

/// Appends a space and a number.
pub fn push_number(text: &mut Vec<u8>, number: u32) -> Result<(), AllocError>
    ensures { OnOk result (text.new.items ≡ text.old.items ++ led (decimal number ∷ [])) }
{
    let mut buffer = Buffer::new();
    push_word(text, buffer.format(number).as_bytes())
}

/// Appends a space and a count.
pub fn push_count(text: &mut Vec<u8>, count: usize) -> Result<(), AllocError>
    ensures { OnOk result (text.new.items ≡ text.old.items ++ led (decimal count ∷ [])) }
{
    let mut buffer = Buffer::new();
    push_word(text, buffer.format(count).as_bytes())
}

/// Appends a space and an integer.
fn push_integer(text: &mut Vec<u8>, number: i64) -> Result<(), AllocError>
    ensures { OnOk result (text.new.items ≡ text.old.items ++ led (signed_decimal number ∷ [])) }
{
    let mut buffer = Buffer::new();
    push_word(text, buffer.format(number).as_bytes())
}

/// Appends a number.
fn push_digits(text: &mut Vec<u8>, number: u32) -> Result<(), AllocError>
    ensures { OnOk result (text.new.items ≡ text.old.items ++ decimal number) }
{
    let mut buffer = Buffer::new();
    text.extend_from_slice(buffer.format(number).as_bytes())?;
    Ok(())
}

/// Appends an object's name.
pub fn push_object_name(text: &mut Vec<u8>, object: u32) -> Result<(), AllocError>
    ensures { OnOk result (text.new.items ≡ text.old.items ++ object_text object) }
{
    push_digits(text, node_of(object))?;
    text.extend_from_slice(b".")?;
    push_digits(text, slot_of(object))
}

/// Appends a space and an object's name.
pub fn push_object(text: &mut Vec<u8>, object: u32) -> Result<(), AllocError>
    ensures { OnOk result (text.new.items ≡ text.old.items ++ led (object_text object ∷ [])) }
{
    text.extend_from_slice(b" ")?;
    push_object_name(text, object)
}

/// Appends a space and a value.
pub fn push_value(text: &mut Vec<u8>, value: Value) -> Result<(), AllocError>
    ensures { OnOk result (text.new.items ≡ text.old.items ++ led (value_text value ∷ [])) }
{
    match value {
        Value::Int(number) => push_integer(text, number),
        Value::Bool(true) => push_word(text, b"true"),
        Value::Bool(false) => push_word(text, b"false"),
        Value::Ref(object) => push_object(text, object),
        Value::Nil => push_word(text, b"nil"),
    }
}

/// Appends a space and a value for each argument.
pub fn push_args(text: &mut Vec<u8>, args: &Args) -> Result<(), AllocError>
    ensures { OnOk result (text.new.items ≡ text.old.items ++ led (map value_text args.now)) }
{
    let values = args.values();
    for value in values {
        push_value(text, *value)?;
    }
    Ok(())
}

/// The text of a name, or no bytes if the table does not have it.
pub fn text_of(names: &Names, id: NameId) -> &[u8]
    ensures { result.now ≡ text_at names.now id }
{
    if (id.0 as usize) < names.count() {
        names.text(id)
    } else {
        b""
    }
}

/// Appends a space and the text of a name.
pub fn push_name(text: &mut Vec<u8>, names: &Names, id: NameId) -> Result<(), AllocError>
    ensures { OnOk result (text.new.items ≡ text.old.items ++ led (text_at names.now id ∷ [])) }
{
    push_word(text, text_of(names, id))
}

/// Appends a space and a written item, a string in quotes.
pub fn push_item(text: &mut Vec<u8>, names: &Names, item: Item) -> Result<(), AllocError>
    ensures { OnOk result (text.new.items ≡ text.old.items ++ led (item_text names.now item ∷ [])) }
{
    match item {
        Item::Value(value) => push_value(text, value),
        Item::Text(id) => {
            push_word(text, b"\"")?;
            text.extend_from_slice(text_of(names, id))?;
            text.extend_from_slice(b"\"")?;
            Ok(())
        }
    }
}

/// Appends a space and the name of a run-time error.
pub fn push_error(text: &mut Vec<u8>, error: Error) -> Result<(), AllocError>
    ensures { OnOk result (text.new.items ≡ text.old.items ++ led (error_text error ∷ [])) }
{
    match error {
        Error::NilDestination => push_word(text, b"NilDestination"),
        Error::NilOperand => push_word(text, b"NilOperand"),
        Error::Overflow => push_word(text, b"Overflow"),
        Error::ZeroDivisor => push_word(text, b"ZeroDivisor"),
        Error::NoOpenGuard => push_word(text, b"NoOpenGuard"),
    }
}
