//! The buffer for the text of a line: words, each after a space.
ghost use Rattle.std.specs.Prelude.{◌≡◌, ◌+◌, ◌<◌, ◌≤◌, [], ◌∷◌, ◌++◌, length, decimal};
ghost use Rattle.std.specs.Fmt.{signed_decimal};
ghost use Rattle.arrayvec.specs.ArrayVec.{array_vec_len};
ghost use Rattle.record_writer.specs.RecordText.{led, object_text};

use arrayvec::ArrayVec;
use itoa::Buffer;
use run_types::{node_of, slot_of};

/// The buffer for the text of a line, of 528 bytes.
pub type LineText = ArrayVec<u8, 528>;

/// Appends bytes. Requires room for them.
pub fn put(text: &mut LineText, bytes: &[u8])
    requires { array_vec_len text.old + length bytes.now ≤ 528 }
    ensures items { text.new.items ≡ text.old.items ++ bytes.now }
    ensures size { array_vec_len text.new ≡ array_vec_len text.old + length bytes.now }
{
    match text.try_extend_from_slice(bytes) {
        Ok(()) => {}
        Err(_) => unreachable!(),
    }
}

/// Appends a space and a word. Requires room for them.
pub fn put_word(text: &mut LineText, word: &[u8])
    requires { array_vec_len text.old + length word.now < 528 }
    ensures items { text.new.items ≡ text.old.items ++ led (word.now ∷ []) }
    ensures size { array_vec_len text.new ≡ array_vec_len text.old + length word.now + 1 }
{
    text.push(b' ');
    put(text, word);
}

/// Appends a number of 2 to 10 digits.
#[inline(never)]
fn put_long(text: &mut LineText, number: u32)
    requires { array_vec_len text.old ≤ 518 }
    ensures items { text.new.items ≡ text.old.items ++ decimal number }
    ensures size { array_vec_len text.new ≤ array_vec_len text.old + 10 }
{
    let mut buffer = Buffer::new();
    put(text, buffer.format(number).as_bytes());
}

/// Appends a number, of at most 10 digits.
#[tactic(auto, using(std::proofs::lemmas::Fmt::decimal_digit))]
pub fn put_digits(text: &mut LineText, number: u32)
    requires { array_vec_len text.old ≤ 518 }
    ensures items { text.new.items ≡ text.old.items ++ decimal number }
    ensures size { array_vec_len text.new ≤ array_vec_len text.old + 10 }
{
    if number < 10 {
        text.push(b'0' + number as u8);
    } else {
        put_long(text, number);
    }
}

/// Appends a space and a number.
pub fn put_number(text: &mut LineText, number: u32)
    requires { array_vec_len text.old ≤ 517 }
    ensures items { text.new.items ≡ text.old.items ++ led (decimal number ∷ []) }
    ensures size { array_vec_len text.new ≤ array_vec_len text.old + 11 }
{
    text.push(b' ');
    put_digits(text, number);
}

/// Appends a space and an integer, at most 21 bytes.
pub fn put_integer(text: &mut LineText, number: i64)
    requires { array_vec_len text.old ≤ 507 }
    ensures items { text.new.items ≡ text.old.items ++ led (signed_decimal number ∷ []) }
    ensures size { array_vec_len text.new ≤ array_vec_len text.old + 21 }
{
    let mut buffer = Buffer::new();
    put_word(text, buffer.format(number).as_bytes());
}

/// Appends the node or the slot of an object's name, of 2 to 5 digits.
#[inline(never)]
fn put_long_half(text: &mut LineText, half: u16)
    requires { array_vec_len text.old ≤ 507 }
    ensures items { text.new.items ≡ text.old.items ++ decimal half }
    ensures size { array_vec_len text.new ≤ array_vec_len text.old + 5 }
{
    let mut buffer = Buffer::new();
    put(text, buffer.format(half).as_bytes());
}

/// Appends the node or the slot of an object's name, of at most 5 digits.
#[tactic(auto, using(std::proofs::lemmas::Fmt::decimal_digit))]
fn put_half(text: &mut LineText, half: u16)
    requires { array_vec_len text.old ≤ 507 }
    ensures items { text.new.items ≡ text.old.items ++ decimal half }
    ensures size { array_vec_len text.new ≤ array_vec_len text.old + 5 }
{
    if half < 10 {
        text.push(b'0' + half as u8);
    } else {
        put_long_half(text, half);
    }
}

/// Appends a space and an object's name, at most 12 bytes.
pub fn put_object(text: &mut LineText, object: u32)
    requires { array_vec_len text.old ≤ 500 }
    ensures items { text.new.items ≡ text.old.items ++ led (object_text object ∷ []) }
    ensures size { array_vec_len text.new ≤ array_vec_len text.old + 12 }
{
    text.push(b' ');
    put_half(text, node_of(object) as u16);
    text.push(b'.');
    put_half(text, slot_of(object) as u16);
}
