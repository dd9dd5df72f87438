//! The numbers, names and values that words spell.
ghost use Rattle.std.specs.Prelude.{◌≡◌, ◌≤◌, ◌<◌, length, option_map, IfSome};
ghost use Rattle.record_parser.specs.Fields.{begins_with, count_of, error_of, integer_of, name_of_word, name_or_integer, negative_of, number_of, object_of, point_from, positive_of};
ghost use Rattle.record_parser.specs.Fields.{string_of, value_of};

use itoa::Buffer;
use run_types::{Error, Value, object_name};
use text_scan::{ByteSet, Decimal, all_in, decimal, is_word, keyword};

/// The number below `limit` whose decimal text is the word. It has no leading zeros.
fn number(limit: u64, word: &[u8]) -> Option<u64>
    ensures { result ≡ number_of limit word.now }
{
    let Decimal::Value(value) = decimal(word) else {
        return None;
    };
    let mut buffer = Buffer::new();
    if value < limit && buffer.format(value).as_bytes() == word {
        return Some(value);
    }
    None
}

/// The number below 2^32 whose decimal text is the word. None if the word is no such text.
pub fn count(word: &[u8]) -> Option<u32>
    ensures { result ≡ count_of word.now }
{
    let value = number(4294967296, word)?;
    Some(value as u32)
}

/// The number from 1 to 2^32 - 1 whose decimal text is the word. None if the word is no such text.
pub fn positive(word: &[u8]) -> Option<u32>
    ensures { result ≡ positive_of word.now }
{
    let value = count(word)?;
    if value > 0 {
        return Some(value);
    }
    None
}

/// The index of the first point.
fn point(word: &[u8]) -> Option<usize>
    ensures place { result ≡ point_from 0 word.now }
    ensures within { IfSome result (λ at. at < length word.now) }
{
    for (place, byte) in word.iter().enumerate() {
        if *byte == b'.' {
            return Some(place);
        }
    }
    None
}

/// The object with this name, `node.slot`, both below 65536. None if the word is no such name.
pub fn object(word: &[u8]) -> Option<u32>
    ensures { result ≡ object_of word.now }
{
    let at = point(word)?;
    let node = number(65536, &word[0..at])?;
    let slot = number(65536, &word[at + 1..word.len()])?;
    Some(object_name(node as u32, slot as u32))
}

/// Reports whether the first byte of the word is `byte`.
pub fn begins_with(byte: u8, word: &[u8]) -> bool
    ensures { result ≡ begins_with byte word.now }
{
    match word {
        [first, ..] => *first == byte,
        [] => false,
    }
}

/// The negative integer whose digits are the word.
fn negative(word: &[u8]) -> Option<i64>
    ensures { result ≡ negative_of word.now }
{
    if word == b"9223372036854775808".as_slice() {
        return Some(i64::MIN);
    }
    let value = number(9223372036854775808, word)?;
    if value > 0 {
        return Some(-(value as i64));
    }
    None
}

/// The integer whose text is the word.
fn integer(word: &[u8]) -> Option<i64>
    ensures { result ≡ integer_of word.now }
{
    if begins_with(b'-', word) {
        return negative(&word[1..word.len()]);
    }
    let value = number(9223372036854775808, word)?;
    Some(value as i64)
}

fn name_or_integer(word: &[u8]) -> Option<Value>
    ensures { result ≡ name_or_integer word.now (object_of word.now) }
{
    if let Some(name) = object(word) {
        return Some(Value::Ref(name));
    }
    let value = integer(word)?;
    Some(Value::Int(value))
}

/// The value whose text is the word. None if the word is no text of a value.
pub fn value(word: &[u8]) -> Option<Value>
    ensures { result ≡ value_of word.now }
{
    if word == b"true".as_slice() {
        return Some(Value::Bool(true));
    }
    if word == b"false".as_slice() {
        return Some(Value::Bool(false));
    }
    if word == b"nil".as_slice() {
        return Some(Value::Nil);
    }
    name_or_integer(word)
}

/// The word, if it is a name of at most 64 bytes and no keyword.
pub fn name(word: &[u8]) -> Option<&[u8]>
    ensures { option_map (λ w. w.now) result ≡ name_of_word word.now }
{
    if is_word(word) && word.len() <= 64 && keyword(word).is_none() {
        return Some(word);
    }
    None
}

/// The text between the quotes of a string, of at most 256 bytes. None if the word is no such string.
pub fn string(word: &[u8]) -> Option<&[u8]>
    ensures { option_map (λ w. w.now) result ≡ string_of word.now }
{
    let size = word.len();
    if size < 2 || size > 258 {
        return None;
    }
    if word[0] != b'"' || word[size - 1] != b'"' {
        return None;
    }
    if all_in(&word[1..size - 1], ByteSet::Inner) {
        return Some(&word[1..size - 1]);
    }
    None
}

/// The run-time error of this name. None if there is none.
pub fn error(word: &[u8]) -> Option<Error>
    ensures { result ≡ error_of word.now }
{
    if word == b"NilDestination".as_slice() {
        return Some(Error::NilDestination);
    }
    if word == b"NilOperand".as_slice() {
        return Some(Error::NilOperand);
    }
    if word == b"Overflow".as_slice() {
        return Some(Error::Overflow);
    }
    if word == b"ZeroDivisor".as_slice() {
        return Some(Error::ZeroDivisor);
    }
    if word == b"NoOpenGuard".as_slice() {
        return Some(Error::NoOpenGuard);
    }
    None
}
