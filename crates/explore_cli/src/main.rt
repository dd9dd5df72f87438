//! The program `explore`: runs the top-level function on the arguments, files and standard streams of the system.
//!
//! Does not know: what each command does.
#![tactic(auto)]

ghost use Rattle.std.specs.Prelude.{◌≡◌, ◌⊎◌, ◌-◌, ◌^◌, ◌≤◌, Some, false, IfSome};
ghost use Rattle.std.specs.Process.{exit_status};
ghost use Rattle.pool_outside.specs.Outside.{Rose};
ghost use Rattle.pool_outside.specs.Reading.{reading};
ghost use Rattle.command_shell.specs.Ends.{StaysWithin, WholeTextWritten};
ghost use Rattle.command_shell.specs.Programs.{MayOpen};
ghost use Rattle.command_shell.specs.Statuses.{code_of};
ghost use Rattle.command_shell.specs.Writing.{writing};
ghost use Rattle.explore_driver.specs.Ends.{EndsOf, IsServable, files_of, inputs};
ghost use Rattle.explore_driver.specs.Words.{Request, request_of, texts_of};

mod progress_line;

use command_shell::Status;
use explore_driver::explore;
use pool_outside::{Files, Sink, StdFiles, StdSink, args_after_program_name};
use pool_search::Progress;
use progress_line::{Clearing, ProgressLine};
use std::alloc::Global;
use std::cell::Cell;
use std::env;
use std::process::ExitCode;

/// Runs the command of these arguments. Returns the exit status of the process.
fn run<F: Files, K: Sink, E: Sink, P: Progress>(
    alloc: Global,
    words: &[String],
    files: &mut F,
    out: &mut K,
    err: &mut E,
    progress: &mut P,
) -> ExitCode
    requires not_live { F.live files.old ≡ false }
    requires countable { F.opens files.old ≤ 2 ^ 64 - 5 }
    requires allowed { IfSome (request_of (texts_of words.now)) (λ r. MayOpen (F.may files.old) (F.opens files.old) (files_of r)) }

    // The exit status is the number of the status with which the
    // call ends. Each has its cause, and the text on both sinks.
    ensures ends { (status : Status) × (exit_status result ≡ code_of status) × EndsOf (texts_of words.now) (request_of (texts_of words.now))
        (reading F.told F.opens F.given F.live F.faults files.old files.new)
        (writing K.written K.faults out.old out.new)
        (writing E.written E.faults err.old err.new)
        status }

    // The input that was opened last has given at most its limit and one read.
    ensures stops_reading { (r : Request) → request_of (texts_of words.now) ≡ Some r → StaysWithin
        (reading F.told F.opens F.given F.live F.faults files.old files.new) (inputs r) }

    // If the arguments are a command, all inputs are accepted, and no read or
    // write failed in this call, the whole text was written, or memory ran out.
    // A stream that is followed must have an end line, and no fault before it.
    ensures complete { (r : Request) → request_of (texts_of words.now) ≡ Some r → IsServable (F.told files.old) r
        → ¬ (Rose (F.faults files.old) (F.faults files.new)) → ¬ (Rose (K.faults out.old) (K.faults out.new)) → ¬ (Rose (E.faults err.old) (E.faults err.new))
        → ((status : Status) × WholeTextWritten status × (exit_status result ≡ code_of status)) ⊎ (exit_status result ≡ 7) }
{
    ExitCode::from(explore(alloc, words, files, out, err, progress).code())
}

fn main(rt: HostRuntime) -> ExitCode {
    let alloc = rt.alloc();
    let Ok(words) = args_after_program_name(alloc, env::args(&rt)) else {
        return ExitCode::from(Status::Memory.code());
    };
    let is_shown = Cell::new(false);
    let mut progress = ProgressLine::make(alloc, rt, rt.stderr(), &is_shown);
    let mut out = Clearing::make(StdSink::make(rt.stdout()), rt.stderr(), &is_shown);
    let mut err = Clearing::make(StdSink::make(rt.stderr()), rt.stderr(), &is_shown);
    let mut files = StdFiles::make(rt);
    let status = run(alloc, &words, &mut files, &mut out, &mut err, &mut progress);
    progress.finish();
    status
}
