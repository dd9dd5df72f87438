//! Makes the output of a command. Each input is read and checked before the next is opened.
ghost use Rattle.std.specs.Prelude.{◌≡◌, ◌++◌, ◌-◌, ◌^◌, ◌≤◌, IfOk, OnOk};
ghost use Rattle.run_record.specs.Readable.{IsRecord};
ghost use Rattle.record_writer.specs.RecordText.{record_text};
ghost use Rattle.command_shell.specs.Ends.{StaysWithin};
ghost use Rattle.command_shell.specs.Programs.{MayOpen};
ghost use Rattle.pool_outside.specs.Reading.{reading};
ghost use Rattle.pool_syntax.specs.TreeOf.{program_of};
ghost use Rattle.search_text.specs.Inquiries.{inquiry};
ghost use Rattle.explore_driver.specs.AskedRequest.{IsOrdered, IsSized, request};
ghost use Rattle.explore_driver.specs.Ends.{inputs};
ghost use Rattle.explore_driver.specs.Outputs.{IsFilledText, IsTextOf, status_of_found};
ghost use Rattle.explore_driver.specs.Results.{ResultsIn};
ghost use Rattle.explore_driver.specs.Words.{of_fill, of_search, of_watch};

use crate::words::{Asked, Shown};
use class_check::Checked;
use command_inputs::{InputError, NamedLines, judge_classes, read_named_lines, read_parsed};
use command_shell::{Status, status_of_verdict};
use pool_outside::Files;
use pool_search::Progress;
use record_check::theorems::a_record_has_one_verdict;
use record_writer::push_line;
use run_record::theorems::what_is_read_is_readable;
use run_types::{Line, Names};
use search_text::{Found, Question, answer_of};
use std::alloc::{AllocError, Global};
use stream_check::fill_record;
use stream_check::theorems::a_filled_record_is_a_record;
use watch_text::{Watched, report_waits, watch_lines, watch_record};

/// The text of an output, and the status with which it is written.
#[derive(Drop)]
pub struct Output {
    pub text: Vec<u8>,
    pub status: Status,
}

/// The status with which the answer of a search is written.
fn status_of_found(found: Found) -> Status
    ensures { result ≡ status_of_found found }
{
    match found {
        Found::Finite | Found::Run => Status::Done,
        Found::Shown | Found::Missing => Status::DoneFaulted,
        Found::Over | Found::Running => Status::ScheduleOver,
    }
}

/// Reads a program, and searches its runs. Returns the answer as the output, or the input error.
fn search_output<F: Files, P: Progress>(
    alloc: Global,
    files: &mut F,
    question: &Question<'_>,
    name: &str,
    progress: &mut P,
) -> Result<Output, InputError>
    requires countable { F.opens files.old ≤ 2 ^ 64 - 5 }
    requires allowed { MayOpen (F.may files.old) (F.opens files.old) (inputs (of_search (inquiry question.now) name.now)) }
    ensures makes { ResultsIn (reading F.told F.opens F.given F.live F.faults files.old files.new) (of_search (inquiry question.now) name.now) result }
    ensures unread_within { StaysWithin (reading F.told F.opens F.given F.live F.faults files.old files.new) (inputs (of_search (inquiry question.now) name.now)) }
{
    let parsed = match read_parsed(alloc, files, name) {
        Ok(parsed) => parsed,
        Err(stop) => return Err(stop),
    };
    let checked = match judge_classes(alloc, &parsed) {
        Ok(checked) => checked,
        Err(stop) => return Err(stop),
    };
    match answer_of(alloc, &checked, &parsed.names, question, progress) {
        Ok(answer) => Ok(Output {
            status: status_of_found(answer.found),
            text: answer.text,
        }),
        Err(AllocError) => Err(InputError::Memory),
    }
}

/// The text that shows the lines, whole or in part, and the verdict on them. An error means out of memory.
fn watched(
    alloc: Global,
    program: &Checked<'_>,
    names: &Names,
    lines: &[Line],
    shown: Shown,
) -> Result<Watched, AllocError>
    requires { IsOrdered shown }
    ensures { IfOk result (λ w. IsTextOf shown (program_of program.now.program.now) names.now lines.now w.text.items w.verdict) }
{
    match shown {
        Shown::Whole => watch_record(alloc, program, names, lines),
        Shown::Lines { first, last } => {
            watch_lines(alloc, program, names, lines, first as usize, last as usize)
        }
        Shown::Waits => report_waits(alloc, program, names, lines),
    }
}

/// Reads a program, and then the record `claim`. Returns the record as a run of the program as the output, or the input
/// error.
fn watch_output<F: Files>(
    alloc: Global,
    files: &mut F,
    shown: Shown,
    program: &str,
    claim: &str,
) -> Result<Output, InputError>
    requires ordered { IsOrdered shown }
    requires countable { F.opens files.old ≤ 2 ^ 64 - 5 }
    requires allowed { MayOpen (F.may files.old) (F.opens files.old) (inputs (of_watch shown program.now claim.now)) }
    ensures makes { ResultsIn (reading F.told F.opens F.given F.live F.faults files.old files.new) (of_watch shown program.now claim.now) result }
    ensures unread_within { StaysWithin (reading F.told F.opens F.given F.live F.faults files.old files.new) (inputs (of_watch shown program.now claim.now)) }
{
    a_record_has_one_verdict();
    let parsed = match read_parsed(alloc, files, program) {
        Ok(parsed) => parsed,
        Err(stop) => return Err(stop),
    };
    let checked = match judge_classes(alloc, &parsed) {
        Ok(checked) => checked,
        Err(stop) => return Err(stop),
    };
    let read = match read_named_lines(alloc, files, claim, &parsed.names) {
        Ok(read) => read,
        Err(stop) => return Err(stop),
    };
    match watched(alloc, &checked, &read.names, read.lines.items(), shown) {
        Ok(watched) => Ok(Output {
            status: status_of_verdict(&watched.verdict),
            text: watched.text,
        }),
        Err(AllocError) => Err(InputError::Memory),
    }
}

/// Appends the lines of a record in the first form. An error means out of memory.
fn push_lines(text: &mut Vec<u8>, names: &Names, lines: &[Line]) -> Result<(), AllocError>
    ensures { OnOk result (text.new.items ≡ text.old.items ++ record_text names.now lines.now) }
{
    for line in lines {
        push_line(text, names, line)?;
    }
    Ok(())
}

/// Fills in the local transitions of the lines. Returns the text of the filled record, and the verdict on it.
/// Requires the lines of a record. An error means out of memory.
fn filled(alloc: Global, program: &Checked<'_>, read: &NamedLines) -> Result<Watched, AllocError>
    requires { IsRecord read.now.names read.now.lines }
    ensures { IfOk result (λ w. IsFilledText (program_of program.now.program.now) read.now.names read.now.lines w.text.items w.verdict) }
{
    a_filled_record_is_a_record();
    let filled = fill_record(alloc, program, read.lines.items())?;
    let mut text = Vec::new(alloc);
    push_lines(&mut text, &read.names, filled.lines.items())?;
    Ok(Watched {
        text,
        verdict: filled.verdict,
    })
}

/// Reads a program, and then the record `claim`. Returns the record with local transitions filled in as the output, or
/// the input error.
fn fill_output<F: Files>(
    alloc: Global,
    files: &mut F,
    program: &str,
    claim: &str,
) -> Result<Output, InputError>
    requires countable { F.opens files.old ≤ 2 ^ 64 - 5 }
    requires allowed { MayOpen (F.may files.old) (F.opens files.old) (inputs (of_fill program.now claim.now)) }
    ensures makes { ResultsIn (reading F.told F.opens F.given F.live F.faults files.old files.new) (of_fill program.now claim.now) result }
    ensures unread_within { StaysWithin (reading F.told F.opens F.given F.live F.faults files.old files.new) (inputs (of_fill program.now claim.now)) }
{
    what_is_read_is_readable();
    let parsed = match read_parsed(alloc, files, program) {
        Ok(parsed) => parsed,
        Err(stop) => return Err(stop),
    };
    let checked = match judge_classes(alloc, &parsed) {
        Ok(checked) => checked,
        Err(stop) => return Err(stop),
    };
    let read = match read_named_lines(alloc, files, claim, &parsed.names) {
        Ok(read) => read,
        Err(stop) => return Err(stop),
    };
    match filled(alloc, &checked, &read) {
        Ok(filled) => Ok(Output {
            status: status_of_verdict(&filled.verdict),
            text: filled.text,
        }),
        Err(AllocError) => Err(InputError::Memory),
    }
}

/// Makes the output of a command. Reports the first input that is not accepted, a failed read, or out of memory.
/// Requires that each input of the command may be opened.
pub fn make_output<F: Files, P: Progress>(
    alloc: Global,
    files: &mut F,
    asked: &Asked<'_>,
    progress: &mut P,
) -> Result<Output, InputError>
    requires sized { IsSized asked.now }
    requires countable { F.opens files.old ≤ 2 ^ 64 - 5 }
    requires allowed { MayOpen (F.may files.old) (F.opens files.old) (inputs (request asked.now)) }
    ensures makes { ResultsIn (reading F.told F.opens F.given F.live F.faults files.old files.new) (request asked.now) result }
    ensures unread_within { StaysWithin (reading F.told F.opens F.given F.live F.faults files.old files.new) (inputs (request asked.now)) }
{
    match asked {
        Asked::Search { question, name } => search_output(alloc, files, question, name, progress),
        Asked::Watch {
            shown,
            program,
            record,
        } => watch_output(alloc, files, *shown, program, record),
        Asked::Fill { program, record } => fill_output(alloc, files, program, record),
    }
}
