//! Makes the output of a command. Each input is read and checked before the next is opened.
ghost use Rattle.std.specs.Prelude.{◌≡◌, ◌<◌, false, ◌+◌, ◌-◌, ◌^◌, ◌≤◌};
ghost use Rattle.command_line.specs.Commands.{of_check, of_convert, of_load, of_program, of_run};
ghost use Rattle.command_line.specs.Requests.{IsSized, names_of, request};
ghost use Rattle.pool_outside.specs.Reading.{reading};
ghost use Rattle.command_shell.specs.Ends.{StaysWithin};
ghost use Rattle.command_shell.specs.Programs.{MayOpen};
ghost use Rattle.pool_driver.specs.Inputs.{inputs};
ghost use Rattle.command_inputs.specs.Inputs.{most_bytes, most_of_record, one_read};
ghost use Rattle.pool_driver.specs.Readers.{ResultsIn, Rings};

use crate::converted::Recorded;
use crate::inputs::{load_texts, read_file, read_placed, read_recorded, read_scheduled, read_unit};
use crate::judged::judge;
use crate::program::file_of_parsed;
use code_semantics::{Unit, UnitFile};
use command_inputs::{InputError, Parsed, judge_classes, read_lines, read_parsed, read_typed};
use command_line::{Ask, Command, Files as FileNames, Show};
use command_shell::Status;
use pool_gen::ring;
use pool_outside::Files;
use run_loop::Loaded;
use std::alloc::Global;

/// The output of a command, before it is written.
#[derive(Drop)]
pub enum Output {
    Run { show: Show, loaded: Loaded },
    /// A run whose counts are written.
    Ring(Loaded),
    /// A program whose canonical text is written.
    Canonical(Parsed),
    /// Code whose listing is written.
    Listing(Unit),
    /// An object code file whose bytes are written.
    File(UnitFile),
    /// A record that is written in the second form.
    Converted(Recorded),
    /// The line of a verdict on a record, with its status.
    Verdict { line: Vec<u8>, status: Status },
}

/// Reads a program, a placement and a schedule. Returns their run as the output, or the input error.
fn run_output<F: Files>(
    alloc: Global,
    files: &mut F,
    show: Show,
    names: FileNames<'_>,
) -> Result<Output, InputError>
    requires countable { F.opens files.old ≤ 2 ^ 64 - 5 }
    requires allowed { MayOpen (F.may files.old) (F.opens files.old) (inputs (of_run show (names_of names))) }
    ensures makes { ResultsIn (reading F.told F.opens F.given F.live F.faults files.old files.new) (of_run show (names_of names.entry)) result }
    ensures unread_within { F.given files.new ≤ most_bytes + one_read }
{
    let unit = match read_unit(alloc, files, names.program) {
        Ok(unit) => unit,
        Err(stop) => return Err(stop),
    };
    let placement = match read_placed(alloc, files, names.placement, &unit) {
        Ok(placement) => placement,
        Err(stop) => {
            drop(unit);
            return Err(stop);
        }
    };
    let schedule = match read_scheduled(alloc, files, names.schedule, &placement) {
        Ok(schedule) => schedule,
        Err(stop) => {
            drop(placement);
            drop(unit);
            return Err(stop);
        }
    };
    let loaded = Loaded {
        unit,
        placement,
        schedule,
    };
    Ok(Output::Run { show, loaded })
}

/// Reads a program without class faults. Returns its canonical text as the output, or the input error.
fn canonical_output<F: Files>(
    alloc: Global,
    files: &mut F,
    name: &str,
) -> Result<Output, InputError>
    requires countable { F.opens files.old ≤ 2 ^ 64 - 5 }
    requires allowed { MayOpen (F.may files.old) (F.opens files.old) (inputs (of_program Ask.Canonical name.now)) }
    ensures makes { ResultsIn (reading F.told F.opens F.given F.live F.faults files.old files.new) (of_program Ask.Canonical name.now) result }
    ensures unread_within { F.given files.new ≤ most_bytes + one_read }
{
    match read_typed(alloc, files, name) {
        Ok(parsed) => Ok(Output::Canonical(parsed)),
        Err(stop) => Err(stop),
    }
}

/// Reads and compiles a program. Returns the listing of its code as the output, or the input error.
fn listing_output<F: Files>(alloc: Global, files: &mut F, name: &str) -> Result<Output, InputError>
    requires countable { F.opens files.old ≤ 2 ^ 64 - 5 }
    requires allowed { MayOpen (F.may files.old) (F.opens files.old) (inputs (of_program Ask.Listing name.now)) }
    ensures makes { ResultsIn (reading F.told F.opens F.given F.live F.faults files.old files.new) (of_program Ask.Listing name.now) result }
    ensures unread_within { F.given files.new ≤ most_bytes + one_read }
{
    match read_unit(alloc, files, name) {
        Ok(unit) => Ok(Output::Listing(unit)),
        Err(stop) => Err(stop),
    }
}

/// Reads and compiles a program. Returns its object code file as the output, or the input error.
fn file_output<F: Files>(alloc: Global, files: &mut F, name: &str) -> Result<Output, InputError>
    requires countable { F.opens files.old ≤ 2 ^ 64 - 5 }
    requires allowed { MayOpen (F.may files.old) (F.opens files.old) (inputs (of_program Ask.File name.now)) }
    ensures makes { ResultsIn (reading F.told F.opens F.given F.live F.faults files.old files.new) (of_program Ask.File name.now) result }
    ensures unread_within { F.given files.new ≤ most_bytes + one_read }
{
    let parsed = match read_parsed(alloc, files, name) {
        Ok(parsed) => parsed,
        Err(stop) => return Err(stop),
    };
    match file_of_parsed(alloc, &parsed) {
        Ok(file) => Ok(Output::File(file)),
        Err(stop) => Err(stop),
    }
}

/// The output of a command on one program: its canonical text, its listing or its object code file.
fn program_output<F: Files>(
    alloc: Global,
    files: &mut F,
    ask: Ask,
    name: &str,
) -> Result<Output, InputError>
    requires countable { F.opens files.old ≤ 2 ^ 64 - 5 }
    requires allowed { MayOpen (F.may files.old) (F.opens files.old) (inputs (of_program ask name.now)) }
    ensures makes { ResultsIn (reading F.told F.opens F.given F.live F.faults files.old files.new) (of_program ask name.now) result }
    ensures unread_within { F.given files.new ≤ most_bytes + one_read }
{
    match ask {
        Ask::Canonical => canonical_output(alloc, files, name),
        Ask::Listing => listing_output(alloc, files, name),
        Ask::File => file_output(alloc, files, name),
    }
}

/// Reads a record of either form. Returns it in the second form as the output, or the input error.
fn convert_output<F: Files>(alloc: Global, files: &mut F, name: &str) -> Result<Output, InputError>
    requires countable { F.opens files.old ≤ 2 ^ 64 - 5 }
    requires allowed { MayOpen (F.may files.old) (F.opens files.old) (inputs (of_convert name.now)) }
    ensures makes { ResultsIn (reading F.told F.opens F.given F.live F.faults files.old files.new) (of_convert name.now) result }
    ensures unread_within { F.given files.new ≤ most_of_record + one_read }
{
    match read_recorded(alloc, files, name) {
        Ok(recorded) => Ok(Output::Converted(recorded)),
        Err(stop) => Err(stop),
    }
}

/// Reads a program, and then the record `claim`. Returns the verdict on the record as the output, or the input error.
fn check_output<F: Files>(
    alloc: Global,
    files: &mut F,
    program: &str,
    claim: &str,
) -> Result<Output, InputError>
    requires countable { F.opens files.old ≤ 2 ^ 64 - 5 }
    requires allowed { MayOpen (F.may files.old) (F.opens files.old) (inputs (of_check program.now claim.now)) }
    ensures makes { ResultsIn (reading F.told F.opens F.given F.live F.faults files.old files.new) (of_check program.now claim.now) result }
    ensures unread_within { StaysWithin (reading F.told F.opens F.given F.live F.faults files.old files.new) (inputs (of_check program.now claim.now)) }
{
    let parsed = match read_parsed(alloc, files, program) {
        Ok(parsed) => parsed,
        Err(stop) => return Err(stop),
    };
    let checked = match judge_classes(alloc, &parsed) {
        Ok(checked) => checked,
        Err(stop) => return Err(stop),
    };
    let lines = match read_lines(alloc, files, claim, &parsed.names) {
        Ok(lines) => lines,
        Err(stop) => return Err(stop),
    };
    judge(alloc, &checked, &parsed.names, &lines)
}

/// Reads an object code file, a placement and a schedule. Returns their run as the output, or the input error.
fn load_output<F: Files>(
    alloc: Global,
    files: &mut F,
    file: &str,
    place: &str,
    plan: &str,
) -> Result<Output, InputError>
    requires countable { F.opens files.old ≤ 2 ^ 64 - 5 }
    requires allowed { MayOpen (F.may files.old) (F.opens files.old) (inputs (of_load file.now place.now plan.now)) }
    ensures makes { ResultsIn (reading F.told F.opens F.given F.live F.faults files.old files.new) (of_load file.now place.now plan.now) result }
    ensures unread_within { StaysWithin (reading F.told F.opens F.given F.live F.faults files.old files.new) (inputs (of_load file.now place.now plan.now)) }
{
    let unit = match read_file(alloc, files, file) {
        Ok(unit) => unit,
        Err(stop) => return Err(stop),
    };
    let placement = match read_placed(alloc, files, place, &unit) {
        Ok(placement) => placement,
        Err(stop) => {
            drop(unit);
            return Err(stop);
        }
    };
    let schedule = match read_scheduled(alloc, files, plan, &placement) {
        Ok(schedule) => schedule,
        Err(stop) => {
            drop(placement);
            drop(unit);
            return Err(stop);
        }
    };
    let loaded = Loaded {
        unit,
        placement,
        schedule,
    };
    Ok(Output::Run {
        show: Show::Record,
        loaded,
    })
}

/// Generates the inputs of a ring of 2 to 1000 cells, and returns their run as the output.
fn ring_output(alloc: Global, cells: u32) -> Result<Output, InputError>
    requires { (2 ≤ cells) × (cells ≤ 1000) }
    ensures { Rings cells result }
{
    let texts = match ring(alloc, cells) {
        Ok(texts) => texts,
        Err(_) => return Err(InputError::Memory),
    };
    match load_texts(
        alloc,
        texts.program.items(),
        texts.placement.items(),
        texts.schedule.items(),
    ) {
        Ok(loaded) => Ok(Output::Ring(loaded)),
        Err(stop) => Err(stop),
    }
}

/// Makes the output of a command. Reports the first input that is not accepted, a failed read, or out of memory.
/// Requires that no file is open, and that each input of the command may be opened.
pub fn make_output<F: Files>(
    alloc: Global,
    files: &mut F,
    command: Command<'_>,
) -> Result<Output, InputError>
    requires countable { F.opens files.old ≤ 2 ^ 64 - 5 }
    requires allowed { MayOpen (F.may files.old) (F.opens files.old) (inputs (request command)) }
    requires not_live { F.live files.old ≡ false }
    requires sized { IsSized command }
    ensures makes { ResultsIn (reading F.told F.opens F.given F.live F.faults files.old files.new) (request command.entry) result }
    ensures unread_within { StaysWithin (reading F.told F.opens F.given F.live F.faults files.old files.new) (inputs (request command.entry)) }
{
    match command {
        Command::Run { show, files: names } => run_output(alloc, files, show, names),
        Command::Program { ask, name } => program_output(alloc, files, ask, name),
        Command::Ring { cells } => ring_output(alloc, cells),
        Command::Convert { name } => convert_output(alloc, files, name),
        Command::Check { program, record } => check_output(alloc, files, program, record),
        Command::Load {
            unit,
            placement,
            schedule,
        } => load_output(alloc, files, unit, placement, schedule),
    }
}
