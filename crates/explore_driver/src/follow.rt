//! Follows a stream as a run of a program: reads it piece by piece, and writes what comes of each piece before it reads
//! the next.
ghost use Rattle.std.specs.Prelude.{◌≡◌, ◌⊎◌, ◌<◌, ◌≤◌, ◌+◌, ◌-◌, ◌^◌, IfOk, IsTrue, [], Some, true, Bool, length, take};
ghost use Rattle.text_scan.specs.Text.{Text};
ghost use Rattle.pool_syntax.specs.TreeOf.{program_of};
ghost use Rattle.pool_outside.specs.Outside.{Rose};
ghost use Rattle.pool_outside.specs.Reading.{reading};
ghost use Rattle.command_shell.specs.Ends.{StaysWithin, WholeTextWritten};
ghost use Rattle.command_shell.specs.Programs.{MayOpen};
ghost use Rattle.command_shell.specs.Writing.{writing};
ghost use Rattle.stream_check.specs.Progress.{HasRead, IsFresh};
ghost use Rattle.explore_driver.specs.Ends.{Ends, IsServable, files_of, inputs};
ghost use Rattle.explore_driver.specs.FollowSteps.{PieceEnds, StreamEnds, end_by};
ghost use Rattle.explore_driver.specs.Words.{of_follow};

use class_check::Checked;
use command_inputs::{Fault, Input, InputError, judge_classes, read_parsed};
use command_shell::{Status, say_stop, status_of_verdict};
use pool_outside::{Failed, Files, Sink, write_all_of};
use run_types::{Names, Verdict};
use std::alloc::{AllocError, Global};
use stream_check::{Judge, Stop};

/// The largest number of bytes that one read asks for.
const PIECE: usize = 65536;

/// How the stream came to its end: with a verdict, with an error to report, or by a failed write.
#[derive(Clone, Copy)]
pub enum Followed {
    Judged(Verdict),
    Stopped(InputError),
    Unwritten,
}

/// The end of a stream with a fault.
fn refused(fault: Fault) -> Followed
    ensures { result ≡ Followed.Stopped (InputError.Refused Input.Record fault) }
{
    Followed::Stopped(InputError::Refused {
        input: Input::Record,
        fault,
    })
}

/// The end of the stream at which the judge stops, if it does.
fn end_by(stop: Option<Stop>) -> Option<Followed>
    ensures { result ≡ end_by stop }
{
    match stop {
        None => None,
        Some(Stop::Judged(verdict)) => Some(Followed::Judged(verdict)),
        Some(Stop::Faulty(fault)) => Some(refused(Fault::Record(fault))),
    }
}

/// Judges the first `taken` bytes of `room`, which are the next ones of the stream, and writes what comes of them. None
/// if the stream goes on.
fn follow_piece<'a, K: Sink>(
    alloc: Global,
    program: &Checked<'a>,
    names: &Names,
    judge: &mut Judge<'a>,
    room: &[u8],
    taken: usize,
    out: &mut K,
) -> Option<Followed>
    requires few { length names.now < 2 ^ 32 }
    requires fresh { IsFresh judge.old }
    requires within { taken ≤ length room.now }
    ensures { (fills : Bool) (s : Text) → HasRead fills (program_of program.now.program.now) names.now s judge.old
        → PieceEnds fills (program_of program.now.program.now) names.now s (take taken room.now) (writing K.written K.faults out.old out.new) judge.new result }
{
    let mut text = Vec::new(alloc);
    let stop = match judge.read(alloc, program, names, &room[..taken], &mut text) {
        Ok(stop) => stop,
        Err(AllocError) => return Some(Followed::Stopped(InputError::Memory)),
    };
    match write_all_of(out, &text) {
        Ok(()) => end_by(stop),
        Err(_) => Some(Followed::Unwritten),
    }
}

/// The room for one read.
fn zeros(alloc: Global) -> Result<Vec<u8>, AllocError>
    ensures { IfOk result (λ bytes. length bytes.items ≡ 65536) }
{
    vec![in alloc; 0u8; PIECE]
}

/// Reads the open stream up to its end line, its first fault or its end, and writes what comes of it. It makes at most
/// 2^64 - 1 reads.
fn follow_open<'a, F: Files, K: Sink>(
    alloc: Global,
    files: &mut F,
    program: &Checked<'a>,
    names: &Names,
    judge: &mut Judge<'a>,
    out: &mut K,
) -> Followed
    requires few { length names.now < 2 ^ 32 }
    requires live { F.live files.old ≡ true }
    requires given { F.given files.old ≡ 0 }
    requires fresh { HasRead judge.old.fills (program_of program.now.program.now) names.now [] judge.old }
    ensures ends { (n : Text) → F.rest files.old ≡ F.told files.old n → StreamEnds judge.old.fills (program_of program.now.program.now) names.now n
        (reading F.told F.opens F.given F.live F.faults files.old files.new) (writing K.written K.faults out.old out.new) result }
    ensures same_opens { F.opens files.new ≡ F.opens files.old }
    ensures same_texts { F.told files.new ≡ F.told files.old }
    ensures faults_stay_or_rise { F.faults files.old ≤ F.faults files.new }
{
    let Ok(mut piece) = zeros(alloc) else {
        return Followed::Stopped(InputError::Memory);
    };
    for _reads in 0..u64::MAX {
        let taken = match files.read(&mut piece) {
            Ok(taken) => taken,
            Err(Failed) => {
                return Followed::Stopped(InputError::Unread {
                    input: Input::Record,
                });
            }
        };
        if taken == 0 {
            return refused(Fault::Record(judge.cut_off()));
        }
        if let Some(end) = follow_piece(alloc, program, names, judge, &piece, taken, out) {
            return end;
        }
    }
    refused(Fault::TooLong)
}

/// Opens the stream, and follows it as a run of the program. The judge has read nothing.
fn follow_stream<'a, F: Files, K: Sink>(
    alloc: Global,
    files: &mut F,
    name: &str,
    program: &Checked<'a>,
    names: &Names,
    judge: &mut Judge<'a>,
    out: &mut K,
) -> Followed
    requires few { length names.now < 2 ^ 32 }
    requires allowed { IsTrue (F.may files.old (F.opens files.old) name.now) }
    requires countable { F.opens files.old < 2 ^ 64 - 1 }
    requires fresh { HasRead judge.old.fills (program_of program.now.program.now) names.now [] judge.old }
    ensures ends { StreamEnds judge.old.fills (program_of program.now.program.now) names.now name.now
        (reading F.told F.opens F.given F.live F.faults files.old files.new) (writing K.written K.faults out.old out.new) result }
    ensures opened_once { F.opens files.new ≡ F.opens files.old + 1 }
{
    match files.open_file(name) {
        Ok(()) => follow_open(alloc, files, program, names, judge, out),
        Err(Failed) => Followed::Stopped(InputError::Unread {
            input: Input::Record,
        }),
    }
}

/// Reads a program, and follows a stream as a run of it; if it `fills`, with local transitions filled in. Requires that
/// both may be opened. Returns the status of the verdict, that of the first input error, or `WriteFault` if a write fails,
/// or `Memory`.
pub fn follow<F: Files, K: Sink, E: Sink>(
    alloc: Global,
    files: &mut F,
    fills: bool,
    program: &str,
    stream: &str,
    out: &mut K,
    err: &mut E,
) -> Status
    requires countable { F.opens files.old ≤ 2 ^ 64 - 5 }
    requires allowed { MayOpen (F.may files.old) (F.opens files.old) (files_of (of_follow fills program.now stream.now)) }
    ensures ends { Ends (Some (of_follow fills program.now stream.now))
        (reading F.told F.opens F.given F.live F.faults files.old files.new)
        (writing K.written K.faults out.old out.new)
        (writing E.written E.faults err.old err.new)
        result }
    ensures stops_reading { StaysWithin (reading F.told F.opens F.given F.live F.faults files.old files.new) (inputs (of_follow fills program.now stream.now)) }
    ensures complete { IsServable (F.told files.old) (of_follow fills program.now stream.now)
        → ¬ (Rose (F.faults files.old) (F.faults files.new)) → ¬ (Rose (K.faults out.old) (K.faults out.new)) → ¬ (Rose (E.faults err.old) (E.faults err.new))
        → WholeTextWritten result ⊎ (result ≡ Status.Memory) }
{
    let parsed = match read_parsed(alloc, files, program) {
        Ok(parsed) => parsed,
        Err(stop) => return say_stop(alloc, err, stop),
    };
    let checked = match judge_classes(alloc, &parsed) {
        Ok(checked) => checked,
        Err(stop) => return say_stop(alloc, err, stop),
    };
    let Ok(mut judge) = Judge::make(alloc, &checked, fills) else {
        return Status::Memory;
    };
    match follow_stream(
        alloc,
        files,
        stream,
        &checked,
        &parsed.names,
        &mut judge,
        out,
    ) {
        Followed::Judged(verdict) => status_of_verdict(&verdict),
        Followed::Stopped(stop) => say_stop(alloc, err, stop),
        Followed::Unwritten => Status::WriteFault,
    }
}
