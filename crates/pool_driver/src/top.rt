//! The top-level function.
ghost use Rattle.std.specs.Prelude.{◌≡◌, ◌⊎◌, ◌+◌, ◌-◌, ◌^◌, ◌≤◌, ◌<◌, ◌++◌, [], ◌∷◌, Some, codes, false, option_map, IfSome};
ghost use Rattle.text_scan.specs.Text.{Text};
ghost use Rattle.pool_outside.specs.Outside.{Rose};
ghost use Rattle.command_line.specs.Commands.{Request, request_of, texts_of};
ghost use Rattle.command_shell.specs.Ends.{StaysWithin, WholeTextWritten};
ghost use Rattle.command_shell.specs.Programs.{MayOpen};
ghost use Rattle.pool_driver.specs.Ends.{Ends, reading};
ghost use Rattle.pool_driver.specs.Headline.{ShowsOneRun};
ghost use Rattle.pool_driver.specs.Inputs.{IsServable, inputs};
ghost use Rattle.command_shell.specs.Writing.{Delivers, Writes, writing};
ghost use Rattle.pool_driver.specs.Readers.{IsPrintable, status_of_output, text_of};

use crate::converted::SecondForm;
use crate::outputs::{Output, make_output};
use crate::texts::{CanonicalText, FileBytes, Listing};
use command_line::{Show, read_words};
use command_shell::{Status, say, say_stop};
use pool_outside::{Files, Sink, Text, write_gathered};
use run_loop::{write_ring, write_run, write_why};
use std::alloc::{AllocError, Global};

/// The usage line.
const USAGE: &[u8] =
    b"usage: pool record|run|why P L S, pool print|code P, pool ring K, pool convert R, pool check P R, pool build P, pool load U L S\n";

/// Writes a text in pieces of 4096 bytes, without taking memory. Returns `Done`, or `WriteFault` if a write fails.
fn write_text<T: Text, K: Sink>(text: &T, out: &mut K) -> Status
    requires { T.writable text.now }
    ensures { Writes (writing K.written K.faults out.old out.new) (T.bytes text.now) Status.Done result }
{
    match write_gathered(text, out) {
        Ok(()) => Status::Done,
        Err(_) => Status::WriteFault,
    }
}

/// Writes an output. Returns its status, `WriteFault`, or `Memory` with nothing written.
fn write_output<K: Sink>(alloc: Global, out: &mut K, output: &Output) -> Status
    requires { IsPrintable output.now }
    ensures { Delivers (writing K.written K.faults out.old out.new) (text_of output.now) (status_of_output output.now) result }
{
    match output {
        Output::Run { show, loaded } => match show {
            Show::Record | Show::Writes => write_run(alloc, out, *show, loaded),
            Show::Report => write_why(alloc, out, loaded),
        },
        Output::Ring(loaded) => write_ring(alloc, out, loaded),
        Output::Canonical(parsed) => write_text(&CanonicalText { parsed }, out),
        Output::Listing(unit) => write_text(&Listing { unit }, out),
        Output::File(file) => write_text(&FileBytes { file }, out),
        Output::Converted(record) => write_text(&SecondForm { record }, out),
        Output::Verdict { line, status } => say(out, line, *status),
    }
}

/// Runs one command. `words` are the arguments without the program's name.
/// `files` are the files that the command may read. The output goes to `out`, and a line for an error goes to `err`.
/// Requires that no file is open, that fewer than 2^64 - 4 were
/// opened before, and that each input of the command may be opened.
pub fn pool<F: Files, K: Sink, E: Sink>(
    alloc: Global,
    words: &[String],
    files: &mut F,
    out: &mut K,
    err: &mut E,
) -> Status
    requires not_live { F.live files.old ≡ false }
    requires countable { F.opens files.old ≤ 2 ^ 64 - 5 }
    requires allowed { IfSome (request_of (texts_of words.now)) (λ r. MayOpen (F.may files.old) (F.opens files.old) (inputs r)) }

    // The call ends in one of the ways that the definition lists. Each has its cause, and the text on both sinks.
    ensures ends { Ends (request_of (texts_of words.now))
        (reading F.told F.opens F.given F.live F.faults files.old files.new)
        (writing K.written K.faults out.old out.new)
        (writing E.written E.faults err.old err.new)
        result }

    // The input that was opened last has given at most its limit and one read.
    ensures stops_reading { (r : Request) → request_of (texts_of words.now) ≡ Some r → StaysWithin
        (reading F.told F.opens F.given F.live F.faults files.old files.new) (inputs r) }

    // If the arguments are a command, all inputs are accepted, and no read or
    // write failed in this call, the whole text was written, or memory ran out.
    ensures complete { (r : Request) → request_of (texts_of words.now) ≡ Some r → IsServable (F.told files.old) r
        → ¬ (Rose (F.faults files.old) (F.faults files.new)) → ¬ (Rose (K.faults out.old) (K.faults out.new)) → ¬ (Rose (E.faults err.old) (E.faults err.new))
        → WholeTextWritten result ⊎ (result ≡ Status.Memory) }

    // The headline: if `record` ends with the status of a record, it
    // has written the text of lines that show one run of the program.
    ensures headline { (p l s : Text) → texts_of words.now ≡ codes "record" ∷ p ∷ l ∷ s ∷ [] → WholeTextWritten result
        → (source : Text) × (bytes : Text) × IfSome (F.told files.old p) (λ t. source ≡ t)
        × (K.written out.new ≡ option_map (λ w. w ++ bytes) (K.written out.old)) × ShowsOneRun source bytes }
{
    let asked = match read_words(alloc, words) {
        Ok(asked) => asked,
        Err(AllocError) => return Status::Memory,
    };
    match asked {
        Some(command) => match make_output(alloc, files, command) {
            Ok(made) => {
                let status = write_output(alloc, out, &made);
                drop(made);
                status
            }
            Err(stop) => say_stop(alloc, err, stop),
        },
        None => say(err, USAGE, Status::Usage),
    }
}
