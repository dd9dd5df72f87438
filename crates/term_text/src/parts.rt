//! Small parts of a line.
ghost use Rattle.std.specs.Prelude.{◌≡◌, ◌++◌, OnOk, codes};
ghost use Rattle.record_writer.specs.RecordText.{value_text};
ghost use Rattle.term_text.specs.Levels.{binding_text, bindings};
ghost use Rattle.term_text.specs.Words.{more_names, names_text, some_names, word};

use itoa::Buffer;
use pool_syntax::Named;
use record_writer::{push_name, push_object_name, push_word};
use run_types::{NameId, Names, Value};
use std::alloc::AllocError;

/// Appends names, a comma before each.
fn push_more_names(text: &mut Vec<u8>, names: &Names, list: &[Named]) -> Result<(), AllocError>
    ensures { OnOk result (text.new.items ≡ text.old.items ++ more_names names.now list.now) }
{
    for named in list {
        put!(push_word(text, b","));
        put!(push_name(text, names, named.name));
    }
    Ok(())
}

/// Appends names, a comma between each two.
fn push_some_names(text: &mut Vec<u8>, names: &Names, list: &[Named]) -> Result<(), AllocError>
    ensures { OnOk result (text.new.items ≡ text.old.items ++ some_names names.now list.now) }
{
    match list.split_first() {
        None => Ok(()),
        Some((first, rest)) => {
            put!(push_name(text, names, first.name));
            push_more_names(text, names, rest)
        }
    }
}

/// Appends names in parentheses.
pub fn push_names(text: &mut Vec<u8>, names: &Names, list: &[Named]) -> Result<(), AllocError>
    ensures { OnOk result (text.new.items ≡ text.old.items ++ names_text names.now list.now) }
{
    put!(push_word(text, b"("));
    put!(push_some_names(text, names, list));
    push_word(text, b")")
}

/// Appends the front of a marked part.
pub fn push_mark(text: &mut Vec<u8>) -> Result<(), AllocError>
    ensures { OnOk result (text.new.items ≡ text.old.items ++ word (codes "[")) }
{
    push_word(text, b"[")
}

/// Appends the end of a marked part.
pub fn push_unmark(text: &mut Vec<u8>) -> Result<(), AllocError>
    ensures { OnOk result (text.new.items ≡ text.old.items ++ word (codes "]")) }
{
    push_word(text, b"]")
}

/// Appends a value without a space.
fn push_bare_value(text: &mut Vec<u8>, value: Value) -> Result<(), AllocError>
    ensures { OnOk result (text.new.items ≡ text.old.items ++ value_text value) }
{
    match value {
        Value::Int(number) => {
            let mut buffer = Buffer::new();
            text.extend_from_slice(buffer.format(number).as_bytes())
        }
        Value::Bool(true) => text.extend_from_slice(b"true"),
        Value::Bool(false) => text.extend_from_slice(b"false"),
        Value::Ref(object) => push_object_name(text, object),
        Value::Nil => text.extend_from_slice(b"nil"),
    }
}

/// Appends a variable with its value.
fn push_binding(text: &mut Vec<u8>, names: &Names, binding: &(u32, Value)) -> Result<(), AllocError>
    ensures { OnOk result (text.new.items ≡ text.old.items ++ binding_text names.now binding.now) }
{
    put!(push_name(text, names, NameId(binding.0)));
    put!(text.extend_from_slice(b"="));
    push_bare_value(text, binding.1)
}

/// Appends variables with their values.
pub fn push_bindings(
    text: &mut Vec<u8>,
    names: &Names,
    list: &[(u32, Value)],
) -> Result<(), AllocError>
    ensures { OnOk result (text.new.items ≡ text.old.items ++ bindings names.now list.now) }
{
    for binding in list {
        put!(push_binding(text, names, binding));
    }
    Ok(())
}
