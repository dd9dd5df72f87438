//! Bytes as hexadecimal digits.
ghost use Rattle.std.specs.Prelude.{◌≡◌, ◌<◌, ◌≤◌, ◌++◌, length, OnOk};
ghost use Rattle.std.specs.Option.{option_map};
ghost use Rattle.station_text.specs.Digits.{byte_of, digit, digit_of, digits_of_bytes, frame_bytes};
ghost use Rattle.station_text.specs.Fronts.{IsFront};

use arrayvec::ArrayVec;
use station_frames::StationBytes;
use std::alloc::AllocError;

/// The digit of a number below 16.
fn digit(number: u8) -> u8
    requires { number < 16 }
    ensures { result ≡ digit number }
{
    if number < 10 {
        b'0' + number
    } else {
        b'a' + (number - 10)
    }
}

/// The number that a digit spells. None if the byte is no digit.
fn digit_of(byte: u8) -> Option<u8>
    ensures { result ≡ digit_of byte }
{
    match byte {
        b'0'..=b'9' => Some(byte - b'0'),
        b'a'..=b'f' => Some(byte - b'a' + 10),
        _ => None,
    }
}

/// Appends two digits for each byte.
pub(crate) fn push_digits(text: &mut Vec<u8>, bytes: &[u8]) -> Result<(), AllocError>
    ensures { OnOk result (text.new.items ≡ text.old.items ++ digits_of_bytes bytes.now) }
{
    for byte in bytes {
        text.extend_from_slice(&[digit(*byte / 16), digit(*byte % 16)])?;
    }
    Ok(())
}

/// The byte of two digits. None if one is no digit.
fn byte_of(high: u8, low: u8) -> Option<u8>
    ensures { result ≡ byte_of high low }
{
    let high = digit_of(high)?;
    let low = digit_of(low)?;
    Some(high * 16 + low)
}

/// The front of a text: nothing, one byte, or two bytes and more.
#[derive(Clone, Copy)]
enum Front<'a> {
    Nothing,
    One,
    Two(u8, u8, &'a [u8]),
}

/// The first two bytes of a text, if it has as many.
fn front_of(text: &[u8]) -> Front<'_>
    ensures { IsFront text.now result }
{
    match text {
        [] => Front::Nothing,
        [_] => Front::One,
        [first, second, more @ ..] => Front::Two(*first, *second, more),
    }
}

/// The bytes of at most 104 pairs of digits. None if there are more, or if the text is no pairs of digits.
pub(crate) fn bytes_of_digits(word: &[u8]) -> Option<StationBytes>
    ensures { option_map (λ b. b.items) result ≡ frame_bytes word.now }
{
    if word.len() > 208 {
        return None;
    }
    let mut bytes = ArrayVec::new();
    let mut rest = word;
    'pairs: loop {
        match front_of(rest) {
            Front::Nothing => return Some(bytes),
            Front::One => return None,
            Front::Two(high, low, more) => {
                let Some(byte) = byte_of(high, low) else {
                    return None;
                };
                bytes.push(byte);
                rest = more;
            }
        }
    }
}
