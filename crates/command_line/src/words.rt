//! Parses the arguments of the command line with `clap`.
ghost use Rattle.std.specs.Prelude.{◌≡◌, IfOk, IfSome, List, codes, map, option_map, false};
ghost use Rattle.std.specs.List.{list_any};
ghost use Rattle.clap.specs.Words.{app_of, first_of, found_of, new_app, rows_of, rule_of, subcommand_rows_of};
ghost use Rattle.clap.specs.Simple.{on_top};
ghost use Rattle.clap.specs.declared.builder.Command.TheViews.{out-Command as fields_of};
ghost use Rattle.command_line.specs.Commands.{is_option, request_of, ring_size, texts_of};
ghost use Rattle.command_line.specs.Requests.{IsSized, request};
ghost use Rattle.command_line.specs.CommandLine.{check_request, convert_request, load_request, matched_request, pool_app, program_request};
ghost use Rattle.command_line.specs.CommandLine.{positional as rule_at, ring_request, run_request, settings, with_each, words_app};
ghost use Rattle.text_scan.specs.Lines.{decimal_of};

use crate::command::{Ask, Command, Files, Show};
use clap::error::ErrorKind;
use clap::{Arg, ArgMatches};
use std::alloc::{AllocError, Global};
use text_scan::{Decimal, decimal};

/// The smallest and the largest number of cells of a ring.
const FEWEST: u64 = 2;

const MOST: u64 = 1000;

/// Reports whether an argument begins with `-`.
fn is_dashed(word: &str) -> bool
    ensures { result ≡ is_option word.now }
{
    match word.as_bytes() {
        [first, ..] => *first == b'-',
        [] => false,
    }
}

fn any_is_dashed(words: &[String]) -> bool
    ensures { result ≡ list_any is_option (texts_of words.now) }
{
    for word in words {
        if is_dashed(word.as_str()) {
            return true;
        }
    }
    false
}

/// A required positional argument.
fn positional<'a>(alloc: Global, id: &'a str) -> Arg<'a>
    ensures rule { rule_of result ≡ rule_at id.entry.now }
    ensures local { result.global ≡ false }
{
    Arg::new(alloc, id).required(true)
}

/// A command with a required argument for each of these names.
fn of_words<'a>(
    alloc: Global,
    name: &'a str,
    ids: &'a [&'a str],
) -> Result<clap::Command<'a>, AllocError>
    ensures app { IfOk result (λ c. app_of c ≡ words_app name.entry.now (map (λ id. id.now) ids.entry.now)) }
    ensures local { IfOk result (λ c. (fields_of c).has_globals ≡ false) }
{
    let mut command = clap::Command::new(alloc, name);
    for id in ids {
        // `let .. else` instead of `?`: an early exit over a large owned type is then checked faster.
        let Ok(longer) = command.arg(positional(alloc, id)) else {
            return Err(AllocError);
        };
        command = longer;
    }
    Ok(command)
}

/// The command with a subcommand for each row of its name and the names of its arguments.
fn with_rows<'a>(
    alloc: Global,
    command: clap::Command<'a>,
    rows: &[(&'a str, &'a [&'a str])],
) -> Result<clap::Command<'a>, AllocError>
    ensures { IfOk result (λ c. app_of c ≡ with_each (app_of command.entry) (map (λ row. (row.0.now, map (λ id. id.now) row.1.now)) rows.entry.now)) }
{
    let mut line = command;
    for row in rows {
        // `let .. else` instead of `?`: an early exit over a large owned type is then checked faster.
        let Ok(subcommand) = of_words(alloc, row.0, row.1) else {
            return Err(AllocError);
        };
        let Ok(longer) = line.subcommand(subcommand) else {
            return Err(AllocError);
        };
        line = longer;
    }
    Ok(line)
}

/// The parser of the command line, still without subcommands.
fn bare_line<'a>(alloc: Global) -> clap::Command<'a>
    ensures { app_of result ≡ on_top settings (new_app (codes "pool")) }
{
    clap::Command::new(alloc, "pool")
        .no_binary_name(true)
        .disable_help_flag(true)
        .disable_help_subcommand(true)
        .subcommand_required(true)
}

/// The parser of the command line.
fn command_line<'a>(alloc: Global) -> Result<clap::Command<'a>, AllocError>
    ensures { IfOk result (λ c. app_of c ≡ pool_app) }
{
    with_rows(
        alloc,
        bare_line(alloc),
        &[
            ("record", &["program", "placement", "schedule"]),
            ("run", &["program", "placement", "schedule"]),
            ("why", &["program", "placement", "schedule"]),
            ("print", &["program"]),
            ("code", &["program"]),
            ("ring", &["cells"]),
            ("convert", &["record"]),
            ("check", &["program", "record"]),
            ("build", &["program"]),
            ("load", &["program", "placement", "schedule"]),
        ],
    )
}

/// The first value of an argument.
fn value<'a>(matches: &ArgMatches<'a>, id: &str) -> Option<&'a str>
    ensures { option_map (λ s. s.now) result ≡ first_of id.now (rows_of (found_of matches.now)) }
{
    matches.get_str(id)
}

/// The command that runs three inputs.
fn run<'a>(show: Show, matches: &ArgMatches<'a>) -> Option<Command<'a>>
    ensures request { option_map request result ≡ run_request show (rows_of (found_of matches.now)) }
    ensures sized { IfSome result IsSized }
{
    let program = value(matches, "program");
    let placement = value(matches, "placement");
    let schedule = value(matches, "schedule");
    match (program, placement, schedule) {
        (Some(program), Some(placement), Some(schedule)) => {
            let files = Files {
                program,
                placement,
                schedule,
            };
            Some(Command::Run { show, files })
        }
        _ => None,
    }
}

fn program<'a>(ask: Ask, matches: &ArgMatches<'a>) -> Option<Command<'a>>
    ensures request { option_map request result ≡ program_request ask (rows_of (found_of matches.now)) }
    ensures sized { IfSome result IsSized }
{
    match value(matches, "program") {
        Some(name) => Some(Command::Program { ask, name }),
        None => None,
    }
}

/// The number of cells of a ring.
fn ring_size(word: &str) -> Option<u32>
    ensures { result ≡ ring_size (decimal_of word.now) }
{
    match decimal(word.as_bytes()) {
        Decimal::Value(k) => {
            if FEWEST <= k && k <= MOST {
                Some(k as u32)
            } else {
                None
            }
        }
        Decimal::NotDigits => None,
        Decimal::TooLarge => None,
    }
}

/// The command that runs a ring. None if the number of cells is not from 2 to 1000.
fn ring<'a>(matches: &ArgMatches<'a>) -> Option<Command<'a>>
    ensures request { option_map request result ≡ ring_request (rows_of (found_of matches.now)) }
    ensures sized { IfSome result IsSized }
{
    match value(matches, "cells") {
        Some(word) => match ring_size(word) {
            Some(cells) => Some(Command::Ring { cells }),
            None => None,
        },
        None => None,
    }
}

/// The command that converts a record.
fn convert<'a>(matches: &ArgMatches<'a>) -> Option<Command<'a>>
    ensures request { option_map request result ≡ convert_request (rows_of (found_of matches.now)) }
    ensures sized { IfSome result IsSized }
{
    match value(matches, "record") {
        Some(name) => Some(Command::Convert { name }),
        None => None,
    }
}

/// The command that checks a record against a program.
fn check<'a>(matches: &ArgMatches<'a>) -> Option<Command<'a>>
    ensures request { option_map request result ≡ check_request (rows_of (found_of matches.now)) }
    ensures sized { IfSome result IsSized }
{
    let program = value(matches, "program");
    let record = value(matches, "record");
    match (program, record) {
        (Some(program), Some(record)) => Some(Command::Check { program, record }),
        _ => None,
    }
}

/// The command that runs an object code file, a placement and a schedule.
fn load<'a>(matches: &ArgMatches<'a>) -> Option<Command<'a>>
    ensures request { option_map request result ≡ load_request (rows_of (found_of matches.now)) }
    ensures sized { IfSome result IsSized }
{
    let unit = value(matches, "program");
    let placement = value(matches, "placement");
    let schedule = value(matches, "schedule");
    match (unit, placement, schedule) {
        (Some(unit), Some(placement), Some(schedule)) => Some(Command::Load {
            unit,
            placement,
            schedule,
        }),
        _ => None,
    }
}

/// The command of the subcommand that was matched.
fn command<'a>(matches: &ArgMatches<'a>) -> Option<Command<'a>>
    ensures request { option_map request result ≡ matched_request (subcommand_rows_of matches.now) }
    ensures sized { IfSome result IsSized }
{
    let (name, matches) = matches.subcommand()?;
    match name {
        "record" => run(Show::Record, matches),
        "run" => run(Show::Writes, matches),
        "why" => run(Show::Report, matches),
        "print" => program(Ask::Canonical, matches),
        "code" => program(Ask::Listing, matches),
        "build" => program(Ask::File, matches),
        "ring" => ring(matches),
        "convert" => convert(matches),
        "check" => check(matches),
        "load" => load(matches),
        _ => None,
    }
}

/// Parses the arguments of the program, without the program's own name. None exactly if they are no command. Returns
/// `Err` if memory runs out.
pub fn read_words<'a>(alloc: Global, words: &'a [String]) -> Result<Option<Command<'a>>, AllocError>
    ensures request { IfOk result (λ c. option_map request c ≡ request_of (texts_of words.now)) }
    ensures sized { IfOk result (λ c. IfSome c IsSized) }
{
    if any_is_dashed(words) {
        return Ok(None);
    }
    let Ok(line) = command_line(alloc) else {
        return Err(AllocError);
    };
    match line.try_get_matches_from(words) {
        Ok(matches) => Ok(command(&matches)),
        Err(error) => match error.kind() {
            ErrorKind::OutOfMemory => Err(AllocError),
            _ => Ok(None),
        },
    }
}
