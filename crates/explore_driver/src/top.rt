//! The top-level function.
ghost use Rattle.std.specs.Prelude.{◌≡◌, ◌⊎◌, ◌-◌, ◌^◌, ◌≤◌, ◌++◌, Some, false, option_map, IfOk, IfSome, OnOk};
ghost use Rattle.pool_outside.specs.Outside.{Rose};
ghost use Rattle.pool_outside.specs.Reading.{reading};
ghost use Rattle.command_shell.specs.Ends.{StaysWithin, WholeTextWritten};
ghost use Rattle.command_shell.specs.Programs.{MayOpen};
ghost use Rattle.command_shell.specs.Writing.{Delivers, writing};
ghost use Rattle.explore_driver.specs.AskedRequest.{IsSized, IsSizedCommand, request, wanted};
ghost use Rattle.explore_driver.specs.Ends.{Ends, EndsOf, IsServable, files_of, inputs};
ghost use Rattle.explore_driver.specs.Unexpected.{question_line, usage_text};
ghost use Rattle.explore_driver.specs.Words.{Request, request_of, texts_of};

use crate::follow::follow;
use crate::outputs::make_output;
use crate::unexpected::unexpected;
use crate::words::{Asked, Command, read_words};
use command_shell::{Status, say, say_stop};
use pool_outside::{Files, Sink};
use pool_search::Progress;
use std::alloc::{AllocError, Global};

/// The last line of the usage text.
const USAGE: &[u8] =
    b"usage: explore search [stuck|fault] [all] P [N], explore search writes P [N], explore search run J P [N], explore grade [--may-run-on] P N [OUTPUT].., explore watch P R [A B], explore waits|fill P R, explore follow [--fill] P [R]\n";

/// Makes the output of a command, and writes it, or the line of an error.
fn make<F: Files, K: Sink, E: Sink, P: Progress>(
    alloc: Global,
    asked: &Asked<'_>,
    files: &mut F,
    out: &mut K,
    err: &mut E,
    progress: &mut P,
) -> Status
    requires sized { IsSized asked.now }
    requires countable { F.opens files.old ≤ 2 ^ 64 - 5 }
    requires allowed { MayOpen (F.may files.old) (F.opens files.old) (inputs (request asked.now)) }
    ensures ends { Ends (Some (request asked.now))
        (reading F.told F.opens F.given F.live F.faults files.old files.new)
        (writing K.written K.faults out.old out.new)
        (writing E.written E.faults err.old err.new)
        result }
    ensures stops_reading { StaysWithin (reading F.told F.opens F.given F.live F.faults files.old files.new) (inputs (request asked.now)) }
    ensures complete { IsServable (F.told files.old) (request asked.now)
        → ¬ (Rose (F.faults files.old) (F.faults files.new)) → ¬ (Rose (K.faults out.old) (K.faults out.new)) → ¬ (Rose (E.faults err.old) (E.faults err.new))
        → WholeTextWritten result ⊎ (result ≡ Status.Memory) }
{
    match make_output(alloc, files, asked, progress) {
        Ok(output) => say(out, &output.text, output.status),
        Err(stop) => say_stop(alloc, err, stop),
    }
}

/// Runs one command.
fn serve<F: Files, K: Sink, E: Sink, P: Progress>(
    alloc: Global,
    command: &Command<'_>,
    files: &mut F,
    out: &mut K,
    err: &mut E,
    progress: &mut P,
) -> Status
    requires sized { IsSizedCommand command.now }
    requires countable { F.opens files.old ≤ 2 ^ 64 - 5 }
    requires allowed { MayOpen (F.may files.old) (F.opens files.old) (files_of (wanted command.now)) }
    ensures ends { Ends (Some (wanted command.now))
        (reading F.told F.opens F.given F.live F.faults files.old files.new)
        (writing K.written K.faults out.old out.new)
        (writing E.written E.faults err.old err.new)
        result }
    ensures stops_reading { StaysWithin (reading F.told F.opens F.given F.live F.faults files.old files.new) (inputs (wanted command.now)) }
    ensures complete { IsServable (F.told files.old) (wanted command.now)
        → ¬ (Rose (F.faults files.old) (F.faults files.new)) → ¬ (Rose (K.faults out.old) (K.faults out.new)) → ¬ (Rose (E.faults err.old) (E.faults err.new))
        → WholeTextWritten result ⊎ (result ≡ Status.Memory) }
{
    match command {
        Command::Make(asked) => make(alloc, asked, files, out, err, progress),
        Command::Follow {
            fills,
            program,
            stream,
        } => follow(alloc, files, *fills, program, stream, out, err),
    }
}

/// Appends these bytes, the word, and the bytes behind it.
fn push_between(
    text: &mut Vec<u8>,
    before: &[u8],
    word: &[u8],
    behind: &[u8],
) -> Result<(), AllocError>
    ensures { OnOk result (text.new.items ≡ text.old.items ++ (before.now ++ (word.now ++ behind.now))) }
{
    text.extend_from_slice(before)?;
    text.extend_from_slice(word)?;
    text.extend_from_slice(behind)
}

/// Appends the line that names the word.
fn push_word(text: &mut Vec<u8>, word: &str) -> Result<(), AllocError>
    ensures { OnOk result (text.new.items ≡ text.old.items ++ question_line (Some word.now)) }
{
    push_between(text, b"explore: what is ", word.as_bytes(), b"?\n")
}

/// Appends the line that names the word, if there is one.
fn push_question(text: &mut Vec<u8>, word: Option<&str>) -> Result<(), AllocError>
    ensures { OnOk result (text.new.items ≡ text.old.items ++ question_line (option_map (λ w. w.now) word.entry)) }
{
    match word {
        Some(word) => push_word(text, word),
        None => Ok(()),
    }
}

/// The usage text for arguments that are not a command. An error means out of memory.
fn usage_text(alloc: Global, words: &[String]) -> Result<Vec<u8>, AllocError>
    ensures { IfOk result (λ text. text.items ≡ usage_text (texts_of words.now)) }
{
    let mut text = Vec::new(alloc);
    push_question(&mut text, unexpected(words))?;
    text.extend_from_slice(USAGE)?;
    Ok(text)
}

/// Writes the usage text for arguments that are not a command. Returns `Usage`, or `WriteFault` if the write fails, or
/// `Memory` if memory runs out before.
fn say_usage<E: Sink>(alloc: Global, words: &[String], err: &mut E) -> Status
    ensures { Delivers (writing E.written E.faults err.old err.new) (usage_text (texts_of words.now)) Status.Usage result }
{
    match usage_text(alloc, words) {
        Ok(text) => say(err, &text, Status::Usage),
        Err(AllocError) => Status::Memory,
    }
}

/// Runs one command. `words` are the arguments without the program's name.
/// `files` are the files that the command may read. The output goes to `out`, and a line for an error goes to `err`.
/// `progress` is told how far a search is.
/// Requires that no file is open, that fewer than 2^64 - 4 were
/// opened before, and that each file of the command may be opened.
pub fn explore<F: Files, K: Sink, E: Sink, P: Progress>(
    alloc: Global,
    words: &[String],
    files: &mut F,
    out: &mut K,
    err: &mut E,
    progress: &mut P,
) -> Status
    requires not_live { F.live files.old ≡ false }
    requires countable { F.opens files.old ≤ 2 ^ 64 - 5 }
    requires allowed { IfSome (request_of (texts_of words.now)) (λ r. MayOpen (F.may files.old) (F.opens files.old) (files_of r)) }

    // The call ends in one of the ways that the definition lists. Each has its cause, and the text on both sinks.
    // Whatever was read of a stream that is followed, its lines before the last one are a front of a run, and the
    // text on `out` is what this front writes.
    ensures ends { EndsOf (texts_of words.now) (request_of (texts_of words.now))
        (reading F.told F.opens F.given F.live F.faults files.old files.new)
        (writing K.written K.faults out.old out.new)
        (writing E.written E.faults err.old err.new)
        result }

    // The input that was opened last has given at most its limit and one read.
    ensures stops_reading { (r : Request) → request_of (texts_of words.now) ≡ Some r → StaysWithin
        (reading F.told F.opens F.given F.live F.faults files.old files.new) (inputs r) }

    // If the arguments are a command, all inputs are accepted, and no read or
    // write failed in this call, the whole text was written, or memory ran out.
    // A stream that is followed must have an end line, and no fault before it.
    ensures complete { (r : Request) → request_of (texts_of words.now) ≡ Some r → IsServable (F.told files.old) r
        → ¬ (Rose (F.faults files.old) (F.faults files.new)) → ¬ (Rose (K.faults out.old) (K.faults out.new)) → ¬ (Rose (E.faults err.old) (E.faults err.new))
        → WholeTextWritten result ⊎ (result ≡ Status.Memory) }
{
    match read_words(words) {
        Some(command) => serve(alloc, &command, files, out, err, progress),
        None => say_usage(alloc, words, err),
    }
}
