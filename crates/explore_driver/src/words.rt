//! Reads the arguments of a command.
ghost use Rattle.std.specs.Prelude.{◌≡◌, [], ◌∷◌, option_map, IfSome};
ghost use Rattle.text_scan.specs.Lines.{decimal_of};
ghost use Rattle.explore_driver.specs.Words.{command_of, follow_of, followed_of, grade_of, graded_of, is_dashed, is_numeric, lines_of, most_of, of_fill, of_follow, of_watch, outcomes_for, pair_of, request_of, run_for, search_by, search_for, search_of, search_with, texts_of, wanted_of, watch_of};
ghost use Rattle.explore_driver.specs.AskedRequest.{IsOrdered, IsSized, IsSizedCommand, request, wanted};

use pool_search::{Query, Target};
use search_text::Question;
use text_scan::{Decimal, decimal};

/// The smallest and the largest bound on the number of kept configurations, and place of an outcome.
const FEWEST: u64 = 1;

const MOST: u64 = 10_000_000;

/// The bound where it is left out.
const MOST_BY_DEFAULT: &str = "1000000";

/// The standard input, by its name as a file.
const STANDARD_INPUT: &str = "/dev/stdin";

/// What is shown of a record. Lines are counted from 1.
#[derive(Clone, Copy)]
pub enum Shown {
    /// All lines.
    Whole,
    /// The lines from `first` up to `last`.
    Lines { first: u64, last: u64 },
    /// The status of each object after the last line.
    Waits,
}

/// A command whose output is a text, with the names of its files.
#[derive(Clone, Copy)]
pub enum Asked<'a> {
    /// Search the runs of the program.
    Search {
        question: Question<'a>,
        name: &'a str,
    },
    /// Show the record as a run of the program.
    Watch {
        shown: Shown,
        program: &'a str,
        record: &'a str,
    },
    /// Fill in the local transitions of the record.
    Fill {
        program: &'a str,
        record: &'a str,
    },
}

/// A command: one whose output is a text that is made before it is written, or to follow a stream.
#[derive(Clone, Copy)]
pub enum Command<'a> {
    Make(Asked<'a>),
    /// Follow the stream as a run of the program. If it `fills`, the local transitions of the stream are filled in.
    Follow {
        fills: bool,
        program: &'a str,
        stream: &'a str,
    },
}

/// Whether an argument begins with `-`.
pub fn is_dashed(word: &str) -> bool
    ensures { result ≡ is_dashed word.now }
{
    match word.as_bytes() {
        [first, ..] => *first == b'-',
        [] => false,
    }
}

/// Whether an argument begins with a digit.
pub fn is_numeric(word: &str) -> bool
    ensures { result ≡ is_numeric word.now }
{
    match word.as_bytes() {
        [first, ..] => b'0' <= *first && *first <= b'9',
        [] => false,
    }
}

/// The kind of run that the search looks for. None for other arguments.
pub fn wanted_of(word: &str) -> Option<Target>
    ensures { result ≡ wanted_of word.now }
{
    match word {
        "stuck" => Some(Target::Stuck),
        "fault" => Some(Target::Fault),
        _ => None,
    }
}

/// The bound on the number of kept configurations. None if the argument is not a number from 1 to 10,000,000.
pub fn most_of(word: &str) -> Option<u32>
    ensures { result ≡ most_of (decimal_of word.now) }
{
    match decimal(word.as_bytes()) {
        Decimal::Value(k) => {
            if FEWEST <= k && k <= MOST {
                Some(k as u32)
            } else {
                None
            }
        }
        Decimal::NotDigits => None,
        Decimal::TooLarge => None,
    }
}

/// The search for this kind of run. None if the name begins with `-` or the other argument is not a bound.
fn search_for<'a>(wanted: Target, all: bool, name: &'a str, word: &str) -> Option<Asked<'a>>
    ensures request { option_map request result ≡ search_for wanted all name.entry.now word.now }
    ensures sized { IfSome result (λ asked. IsSized asked) }
{
    if is_dashed(name) {
        return None;
    }
    match most_of(word) {
        Some(most) => Some(Asked::Search {
            question: Question::Sought(Query { wanted, all, most }),
            name,
        }),
        None => None,
    }
}

/// The search for all outcomes. None if the name begins with `-` or the other argument is not a bound.
fn outcomes_for<'a>(name: &'a str, word: &str) -> Option<Asked<'a>>
    ensures request { option_map request result ≡ outcomes_for name.entry.now word.now }
    ensures sized { IfSome result (λ asked. IsSized asked) }
{
    if is_dashed(name) {
        return None;
    }
    match most_of(word) {
        Some(most) => Some(Asked::Search {
            question: Question::Outcomes { most },
            name,
        }),
        None => None,
    }
}

/// The search for a run with one of the outcomes, given by its place. None if the name begins with `-`, the place is
/// not a number from 1 to 10,000,000, or the last argument is not a bound.
fn run_for<'a>(place: &str, name: &'a str, word: &str) -> Option<Asked<'a>>
    ensures request { option_map request result ≡ run_for place.now name.entry.now word.now }
    ensures sized { IfSome result (λ asked. IsSized asked) }
{
    if is_dashed(name) {
        return None;
    }
    let place = match most_of(place) {
        Some(place) => place,
        None => return None,
    };
    match most_of(word) {
        Some(most) => Some(Asked::Search {
            question: Question::Run { place, most },
            name,
        }),
        None => None,
    }
}

/// The search of `all`, `writes` or a kind of run, and then a name and a bound.
fn search_by<'a>(first: &str, name: &'a str, word: &str) -> Option<Asked<'a>>
    ensures request { option_map request result ≡ search_by first.now name.entry.now word.now }
    ensures sized { IfSome result (λ asked. IsSized asked) }
{
    if first == "all" {
        return search_for(Target::Both, true, name, word);
    }
    if first == "writes" {
        return outcomes_for(name, word);
    }
    match wanted_of(first) {
        Some(wanted) => search_for(wanted, false, name, word),
        None => None,
    }
}

/// The search of `run` and the place of an outcome, or a kind of run and `all`, and then a name and a
/// bound.
fn search_with<'a>(first: &str, second: &str, name: &'a str, word: &str) -> Option<Asked<'a>>
    ensures request { option_map request result ≡ search_with first.now second.now name.entry.now word.now }
    ensures sized { IfSome result (λ asked. IsSized asked) }
{
    if first == "run" {
        return run_for(second, name, word);
    }
    if second != "all" {
        return None;
    }
    match wanted_of(first) {
        Some(wanted) => search_for(wanted, true, name, word),
        None => None,
    }
}

/// The search of two arguments. The second is the bound if it begins with a digit.
fn search_of_two<'a>(first: &'a str, second: &'a str) -> Option<Asked<'a>>
    ensures request { option_map request result ≡ search_of (first.entry.now ∷ second.entry.now ∷ []) }
    ensures sized { IfSome result (λ asked. IsSized asked) }
{
    if is_numeric(second) {
        return search_for(Target::Both, false, first, second);
    }
    search_by(first, second, MOST_BY_DEFAULT)
}

/// The search of three arguments. The third is the bound if it begins with a digit.
fn search_of_three<'a>(first: &str, second: &'a str, third: &'a str) -> Option<Asked<'a>>
    ensures request { option_map request result ≡ search_of (first.now ∷ second.entry.now ∷ third.entry.now ∷ []) }
    ensures sized { IfSome result (λ asked. IsSized asked) }
{
    if is_numeric(third) {
        return search_by(first, second, third);
    }
    search_with(first, second, third, MOST_BY_DEFAULT)
}

/// The search of the arguments after the first. None if they are not a search.
fn search_of<'a>(words: &'a [String]) -> Option<Asked<'a>>
    ensures request { option_map request result ≡ search_of (texts_of words.now) }
    ensures sized { IfSome result (λ asked. IsSized asked) }
{
    match words {
        [name] => search_for(Target::Both, false, name.as_str(), MOST_BY_DEFAULT),
        [first, second] => search_of_two(first.as_str(), second.as_str()),
        [first, second, third] => search_of_three(first.as_str(), second.as_str(), third.as_str()),
        [first, second, name, most] => search_with(
            first.as_str(),
            second.as_str(),
            name.as_str(),
            most.as_str(),
        ),
        _ => None,
    }
}

/// The grading of a name, a bound, and the outputs that are allowed. `may_run_on` tells whether it may be that no run
/// ends. None if the arguments are not these.
fn graded_of<'a>(may_run_on: bool, words: &'a [String]) -> Option<Asked<'a>>
    ensures request { option_map request result ≡ graded_of may_run_on (texts_of words.now) }
    ensures sized { IfSome result (λ asked. IsSized asked) }
{
    let [name, word, allowed @ ..] = words else {
        return None;
    };
    if is_dashed(name.as_str()) {
        return None;
    }
    match most_of(word.as_str()) {
        Some(most) => Some(Asked::Search {
            question: Question::Graded {
                allowed,
                may_run_on,
                most,
            },
            name: name.as_str(),
        }),
        None => None,
    }
}

/// The grading of the arguments after the first: `--may-run-on`, which is optional, and what is graded. None if they are
/// not one.
fn grade_of<'a>(words: &'a [String]) -> Option<Asked<'a>>
    ensures request { option_map request result ≡ grade_of (texts_of words.now) }
    ensures sized { IfSome result (λ asked. IsSized asked) }
{
    let Some((word, rest)) = words.split_first() else {
        return None;
    };
    if word.as_str() == "--may-run-on" {
        return graded_of(true, rest);
    }
    graded_of(false, words)
}

/// The lines from one number up to another. None if one of them is not a number, the first is 0, or the last is smaller
/// than the first.
fn lines_of<'a>(
    program: &'a str,
    claim: &'a str,
    first: Decimal,
    last: Decimal,
) -> Option<Asked<'a>>
    ensures request { option_map request result ≡ lines_of program.entry.now claim.entry.now first last }
    ensures sized { IfSome result (λ asked. IsSized asked) }
{
    match first {
        Decimal::Value(first) => match last {
            Decimal::Value(last) => {
                if 1 <= first && first <= last {
                    Some(Asked::Watch {
                        shown: Shown::Lines { first, last },
                        program,
                        record: claim,
                    })
                } else {
                    None
                }
            }
            _ => None,
        },
        _ => None,
    }
}

/// What is shown of the record of two names. None if a name begins with `-`.
fn watch_of_two<'a>(shown: Shown, program: &'a str, claim: &'a str) -> Option<Asked<'a>>
    requires { IsOrdered shown }
    ensures request { option_map request result ≡ pair_of (of_watch shown) (program.entry.now ∷ claim.entry.now ∷ []) }
    ensures sized { IfSome result (λ asked. IsSized asked) }
{
    if is_dashed(program) || is_dashed(claim) {
        return None;
    }
    Some(Asked::Watch {
        shown,
        program,
        record: claim,
    })
}

/// Some lines of the record of two names. None if a name begins with `-`, or the other arguments are not numbers of
/// lines.
fn watch_of_four<'a>(program: &'a str, claim: &'a str, first: &str, last: &str) -> Option<Asked<'a>>
    ensures request { option_map request result ≡ watch_of (program.entry.now ∷ claim.entry.now ∷ first.now ∷ last.now ∷ []) }
    ensures sized { IfSome result (λ asked. IsSized asked) }
{
    if is_dashed(program) || is_dashed(claim) {
        return None;
    }
    lines_of(
        program,
        claim,
        decimal(first.as_bytes()),
        decimal(last.as_bytes()),
    )
}

/// The record to be watched of the arguments after the first. None if they are not one.
fn watch_of<'a>(words: &'a [String]) -> Option<Asked<'a>>
    ensures request { option_map request result ≡ watch_of (texts_of words.now) }
    ensures sized { IfSome result (λ asked. IsSized asked) }
{
    match words {
        [program, record] => watch_of_two(Shown::Whole, program.as_str(), record.as_str()),
        [_, _, _] => None,
        [program, record, first, last] => watch_of_four(
            program.as_str(),
            record.as_str(),
            first.as_str(),
            last.as_str(),
        ),
        _ => None,
    }
}

/// The status of the objects after the record of the arguments after the first. None if they are not one.
fn waits_of<'a>(words: &'a [String]) -> Option<Asked<'a>>
    ensures request { option_map request result ≡ pair_of (of_watch Shown.Waits) (texts_of words.now) }
    ensures sized { IfSome result (λ asked. IsSized asked) }
{
    match words {
        [program, record] => watch_of_two(Shown::Waits, program.as_str(), record.as_str()),
        _ => None,
    }
}

/// The record to be filled of the arguments after the first. None if they are not one.
fn fill_of<'a>(words: &'a [String]) -> Option<Asked<'a>>
    ensures request { option_map request result ≡ pair_of of_fill (texts_of words.now) }
    ensures sized { IfSome result (λ asked. IsSized asked) }
{
    let [program, record] = words else {
        return None;
    };
    if is_dashed(program.as_str()) || is_dashed(record.as_str()) {
        return None;
    }
    Some(Asked::Fill {
        program: program.as_str(),
        record: record.as_str(),
    })
}

/// The stream of two names. None if a name begins with `-`.
fn follow_of_two<'a>(fills: bool, program: &'a str, stream: &'a str) -> Option<Command<'a>>
    ensures request { option_map wanted result ≡ pair_of (of_follow fills) (program.entry.now ∷ stream.entry.now ∷ []) }
    ensures sized { IfSome result (λ command. IsSizedCommand command) }
{
    if is_dashed(program) || is_dashed(stream) {
        return None;
    }
    Some(Command::Follow {
        fills,
        program,
        stream,
    })
}

/// The stream to be followed of these arguments: without a second name it is the standard input. None if they are not
/// one.
fn followed_of<'a>(fills: bool, words: &'a [String]) -> Option<Command<'a>>
    ensures request { option_map wanted result ≡ followed_of fills (texts_of words.now) }
    ensures sized { IfSome result (λ command. IsSizedCommand command) }
{
    match words {
        [program] => follow_of_two(fills, program.as_str(), STANDARD_INPUT),
        [program, stream] => follow_of_two(fills, program.as_str(), stream.as_str()),
        _ => None,
    }
}

/// The stream to be followed of the arguments after the first. None if they are not one.
fn follow_of<'a>(words: &'a [String]) -> Option<Command<'a>>
    ensures request { option_map wanted result ≡ follow_of (texts_of words.now) }
    ensures sized { IfSome result (λ command. IsSizedCommand command) }
{
    let Some((word, rest)) = words.split_first() else {
        return None;
    };
    if word.as_str() == "--fill" {
        return followed_of(true, rest);
    }
    followed_of(false, words)
}

/// The command of this output.
fn text_command(asked: Option<Asked<'_>>) -> Option<Command<'_>>
    requires { IfSome asked (λ a. IsSized a) }
    ensures request { option_map wanted result ≡ option_map request asked.entry }
    ensures sized { IfSome result (λ command. IsSizedCommand command) }
{
    match asked {
        Some(asked) => Some(Command::Make(asked)),
        None => None,
    }
}

/// The command that the word names, with the arguments after it. None if they are not a command.
fn command_of<'a>(word: &str, words: &'a [String]) -> Option<Command<'a>>
    ensures request { option_map wanted result ≡ command_of word.now (texts_of words.now) }
    ensures sized { IfSome result (λ command. IsSizedCommand command) }
{
    match word {
        "search" => text_command(search_of(words)),
        "grade" => text_command(grade_of(words)),
        "watch" => text_command(watch_of(words)),
        "waits" => text_command(waits_of(words)),
        "fill" => text_command(fill_of(words)),
        "follow" => follow_of(words),
        _ => None,
    }
}

/// The command of the arguments. None if they are not a command.
pub fn read_words<'a>(words: &'a [String]) -> Option<Command<'a>>
    ensures request { option_map wanted result ≡ request_of (texts_of words.now) }
    ensures sized { IfSome result (λ command. IsSizedCommand command) }
{
    match words.split_first() {
        Some((word, rest)) => command_of(word.as_str(), rest),
        None => None,
    }
}
