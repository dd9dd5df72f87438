//! The commands that a station reads.
ghost use Rattle.std.specs.Prelude.{◌≡◌};
ghost use Rattle.record_parser.specs.Fields.{fields};
ghost use Rattle.station_text.specs.Commands.{command_in, from_of, number_or, three_words, two_words};

use crate::digits::bytes_of_digits;
use record_parser::{count, cut};
use station_frames::{StationFrame, decode};

/// A command: up to `count` turns; to send again to this neighbour; a frame of this run that came from this neighbour;
/// or the end.
#[derive(Clone, Copy)]
pub enum Command {
    Turns {
        count: u32,
    },
    Again {
        to: u32,
    },
    From {
        from: u32,
        run: u32,
        frame: StationFrame,
    },
    Stop,
}

/// The reason that a line is no command.
#[derive(Clone, Copy)]
pub enum CommandFault {
    /// Its first word is no word of a command, or it has not as many words.
    Form,
    /// A number is no decimal number below 2^32.
    Number,
    /// A frame is not spelled by pairs of hexadecimal digits, at most 104.
    Digits,
    /// The bytes of a frame are the encoding of no frame.
    Frame,
}

/// The number that a word spells.
fn number_or(word: &[u8]) -> Result<u32, CommandFault>
    ensures { result ≡ number_or word.now }
{
    match count(word) {
        Some(number) => Ok(number),
        None => Err(CommandFault::Number),
    }
}

/// The command with a frame that these words spell.
fn from_of(from: &[u8], digits: &[u8]) -> Result<Command, CommandFault>
    ensures { result ≡ from_of from.now digits.now }
{
    let from = match count(from) {
        Some(from) => from,
        None => return Err(CommandFault::Number),
    };
    let bytes = match bytes_of_digits(digits) {
        Some(bytes) => bytes,
        None => return Err(CommandFault::Digits),
    };
    match decode(&bytes) {
        Some((run, frame)) => Ok(Command::From { from, run, frame }),
        None => Err(CommandFault::Frame),
    }
}

/// The command of two words.
fn two_words(word: &[u8], number: &[u8]) -> Result<Command, CommandFault>
    ensures { result ≡ two_words word.now number.now }
{
    if word == b"turn".as_slice() {
        return match number_or(number) {
            Ok(count) => Ok(Command::Turns { count }),
            Err(fault) => Err(fault),
        };
    }
    if word == b"send".as_slice() {
        return match number_or(number) {
            Ok(to) => Ok(Command::Again { to }),
            Err(fault) => Err(fault),
        };
    }
    Err(CommandFault::Form)
}

/// The command of three words.
fn three_words(word: &[u8], from: &[u8], digits: &[u8]) -> Result<Command, CommandFault>
    ensures { result ≡ three_words word.now from.now digits.now }
{
    if word == b"from".as_slice() {
        return from_of(from, digits);
    }
    Err(CommandFault::Form)
}

/// The command of a line, or the first fault of the line.
pub fn command_in(line: &[u8]) -> Result<Command, CommandFault>
    ensures { result ≡ command_in (fields line.now) }
{
    let one = cut(b' ', line);
    let Some(behind_one) = one.rest else {
        if one.first == b"stop".as_slice() {
            return Ok(Command::Stop);
        }
        return Err(CommandFault::Form);
    };
    let two = cut(b' ', behind_one);
    let Some(behind_two) = two.rest else {
        return two_words(one.first, two.first);
    };
    let three = cut(b' ', behind_two);
    match three.rest {
        Some(_) => Err(CommandFault::Form),
        None => three_words(one.first, two.first, three.first),
    }
}
