//! Finds the first argument that fits nowhere.
ghost use Rattle.std.specs.Prelude.{◌≡◌, [], ◌∷◌, Some, option_map};
ghost use Rattle.std.specs.Option.{option_or};
ghost use Rattle.text_scan.specs.Lines.{decimal_of};
ghost use Rattle.explore_driver.specs.Words.{texts_of};
ghost use Rattle.explore_driver.specs.Unexpected.{in_command, in_follow, in_grade, in_graded, in_kind, in_lines, in_pair, in_search, in_three, in_two, in_watch, no_all, no_last, no_line, no_name, no_number, no_question, unexpected};

use crate::words::{is_dashed, is_numeric, most_of, wanted_of};
use pool_search::Target;
use text_scan::{Decimal, decimal};

/// The word, if it begins with `-`.
fn no_name<'a>(word: &'a str) -> Option<&'a str>
    ensures { option_map (λ w. w.now) result ≡ no_name word.entry.now }
{
    if is_dashed(word) { Some(word) } else { None }
}

/// The word, if it is not a number from 1 to 10,000,000.
fn no_number<'a>(word: &'a str) -> Option<&'a str>
    ensures { option_map (λ w. w.now) result ≡ no_number word.entry.now }
{
    match most_of(word) {
        Some(_) => None,
        None => Some(word),
    }
}

/// The word, if it names no kind of search.
fn no_question<'a>(word: &'a str) -> Option<&'a str>
    ensures { option_map (λ w. w.now) result ≡ no_question word.entry.now }
{
    if word == "all" {
        return None;
    }
    if word == "writes" {
        return None;
    }
    match wanted_of(word) {
        Some(_) => None,
        None => Some(word),
    }
}

/// The word, if it is not `all`.
fn no_all<'a>(word: &'a str) -> Option<&'a str>
    ensures { option_map (λ w. w.now) result ≡ no_all word.entry.now }
{
    if word == "all" { None } else { Some(word) }
}

/// The word, if it is not the number of a line, which is at least `least`.
fn no_line<'a>(word: &'a str, least: u64) -> Option<&'a str>
    ensures { option_map (λ w. w.now) result ≡ no_line word.entry.now least (decimal_of word.entry.now) }
{
    match decimal(word.as_bytes()) {
        Decimal::Value(k) => { if least <= k { None } else { Some(word) } }
        Decimal::NotDigits => Some(word),
        Decimal::TooLarge => Some(word),
    }
}

/// The word for the last line, if it is not a number of at least that of the first. None if that is not a number.
fn no_last<'a>(first: &str, word: &'a str) -> Option<&'a str>
    ensures { option_map (λ w. w.now) result ≡ no_last (decimal_of first.now) word.entry.now }
{
    match decimal(first.as_bytes()) {
        Decimal::Value(first) => no_line(word, first),
        Decimal::NotDigits => None,
        Decimal::TooLarge => None,
    }
}

/// The word that fits nowhere of two words of a search before N.
fn in_two<'a>(first: &'a str, second: &'a str) -> Option<&'a str>
    ensures { option_map (λ w. w.now) result ≡ in_two first.entry.now second.entry.now }
{
    if first == "run" {
        return no_number(second);
    }
    match no_question(first) {
        Some(word) => Some(word),
        None => no_name(second),
    }
}

/// The word that fits nowhere of the two words behind a kind of search.
fn in_kind<'a>(kind: Option<Target>, second: &'a str, third: &'a str) -> Option<&'a str>
    ensures { option_map (λ w. w.now) result ≡ in_kind kind second.entry.now third.entry.now }
{
    match kind {
        None => Some(second),
        Some(_) => match no_all(second) {
            Some(word) => Some(word),
            None => no_name(third),
        },
    }
}

/// The word that fits nowhere of the three words of a search for a run with an outcome, behind the first of them.
fn in_run<'a>(place: &'a str, name: &'a str) -> Option<&'a str>
    ensures { option_map (λ w. w.now) result ≡ option_or (no_number place.entry.now) (no_name name.entry.now) }
{
    match no_number(place) {
        Some(word) => Some(word),
        None => no_name(name),
    }
}

/// The word that fits nowhere of three words of a search before N.
fn in_three<'a>(first: &'a str, second: &'a str, third: &'a str) -> Option<&'a str>
    ensures { option_map (λ w. w.now) result ≡ in_three first.entry.now second.entry.now third.entry.now }
{
    if first == "run" {
        return in_run(second, third);
    }
    match no_question(first) {
        Some(word) => Some(word),
        None => in_kind(wanted_of(first), second, third),
    }
}

/// The same, of two arguments of a search.
fn in_search_of_two<'a>(first: &'a str, second: &'a str) -> Option<&'a str>
    ensures { option_map (λ w. w.now) result ≡ in_search (first.entry.now ∷ second.entry.now ∷ []) }
{
    if !is_numeric(second) {
        return in_two(first, second);
    }
    match no_name(first) {
        Some(word) => Some(word),
        None => no_number(second),
    }
}

/// The same, of three arguments of a search.
fn in_search_of_three<'a>(first: &'a str, second: &'a str, third: &'a str) -> Option<&'a str>
    ensures { option_map (λ w. w.now) result ≡ in_search (first.entry.now ∷ second.entry.now ∷ third.entry.now ∷ []) }
{
    if !is_numeric(third) {
        return in_three(first, second, third);
    }
    match in_two(first, second) {
        Some(word) => Some(word),
        None => no_number(third),
    }
}

/// The same, of four arguments of a search.
fn in_search_of_four<'a>(
    first: &'a str,
    second: &'a str,
    third: &'a str,
    fourth: &'a str,
) -> Option<&'a str>
    ensures { option_map (λ w. w.now) result ≡ in_search (first.entry.now ∷ second.entry.now ∷ third.entry.now ∷ fourth.entry.now ∷ []) }
{
    match in_three(first, second, third) {
        Some(word) => Some(word),
        None => no_number(fourth),
    }
}

/// The same, of five arguments of a search or more. The fifth is one too many.
fn in_search_of_more<'a>(
    first: &'a str,
    second: &'a str,
    third: &'a str,
    fourth: &'a str,
    fifth: &'a str,
) -> Option<&'a str>
    ensures { option_map (λ w. w.now) result ≡ option_or (in_three first.entry.now second.entry.now third.entry.now) (option_or (no_number fourth.entry.now) (Some fifth.entry.now)) }
{
    match in_three(first, second, third) {
        Some(word) => Some(word),
        None => match no_number(fourth) {
            Some(word) => Some(word),
            None => Some(fifth),
        },
    }
}

/// The first argument of a search that fits nowhere.
fn in_search<'a>(words: &'a [String]) -> Option<&'a str>
    ensures { option_map (λ w. w.now) result ≡ in_search (texts_of words.now) }
{
    match words {
        [] => None,
        [a] => no_name(a.as_str()),
        [a, b] => in_search_of_two(a.as_str(), b.as_str()),
        [a, b, c] => in_search_of_three(a.as_str(), b.as_str(), c.as_str()),
        [a, b, c, d] => in_search_of_four(a.as_str(), b.as_str(), c.as_str(), d.as_str()),
        [a, b, c, d, e, ..] => {
            in_search_of_more(a.as_str(), b.as_str(), c.as_str(), d.as_str(), e.as_str())
        }
    }
}

/// The word that fits nowhere of the arguments of a grading, behind `--may-run-on`.
fn in_graded<'a>(words: &'a [String]) -> Option<&'a str>
    ensures { option_map (λ w. w.now) result ≡ in_graded (texts_of words.now) }
{
    match words {
        [] => None,
        [a] => no_name(a.as_str()),
        [a, b, ..] => match no_name(a.as_str()) {
            Some(word) => Some(word),
            None => no_number(b.as_str()),
        },
    }
}

/// The first argument of a grading that fits nowhere.
fn in_grade<'a>(words: &'a [String]) -> Option<&'a str>
    ensures { option_map (λ w. w.now) result ≡ in_grade (texts_of words.now) }
{
    let Some((word, rest)) = words.split_first() else {
        return None;
    };
    if word.as_str() == "--may-run-on" {
        return in_graded(rest);
    }
    in_graded(words)
}

/// The one of two names that begins with `-`.
fn in_names<'a>(first: &'a str, second: &'a str) -> Option<&'a str>
    ensures { option_map (λ w. w.now) result ≡ in_pair (first.entry.now ∷ second.entry.now ∷ []) }
{
    match no_name(first) {
        Some(word) => Some(word),
        None => no_name(second),
    }
}

/// The first argument that fits nowhere where two names are due.
fn in_pair<'a>(words: &'a [String]) -> Option<&'a str>
    ensures { option_map (λ w. w.now) result ≡ in_pair (texts_of words.now) }
{
    match words {
        [] => None,
        [a] => no_name(a.as_str()),
        [a, b] => in_names(a.as_str(), b.as_str()),
        [a, b, c, ..] => match in_names(a.as_str(), b.as_str()) {
            Some(word) => Some(word),
            None => Some(c.as_str()),
        },
    }
}

/// The first argument that fits nowhere where a stream is to be followed.
fn in_follow<'a>(words: &'a [String]) -> Option<&'a str>
    ensures { option_map (λ w. w.now) result ≡ in_follow (texts_of words.now) }
{
    let Some((word, rest)) = words.split_first() else {
        return None;
    };
    if word.as_str() == "--fill" {
        return in_pair(rest);
    }
    in_pair(words)
}

/// The word that fits nowhere of two names and the number of a line.
fn in_line<'a>(first: &'a str, second: &'a str, third: &'a str) -> Option<&'a str>
    ensures { option_map (λ w. w.now) result ≡ in_watch (first.entry.now ∷ second.entry.now ∷ third.entry.now ∷ []) }
{
    match in_names(first, second) {
        Some(word) => Some(word),
        None => no_line(third, 1),
    }
}

/// The word that fits nowhere of two names and the numbers of two lines.
fn in_lines<'a>(first: &'a str, second: &'a str, third: &'a str, fourth: &'a str) -> Option<&'a str>
    ensures { option_map (λ w. w.now) result ≡ in_lines first.entry.now second.entry.now third.entry.now fourth.entry.now }
{
    match in_line(first, second, third) {
        Some(word) => Some(word),
        None => no_last(third, fourth),
    }
}

/// The first argument that fits nowhere where a record is to be watched.
fn in_watch<'a>(words: &'a [String]) -> Option<&'a str>
    ensures { option_map (λ w. w.now) result ≡ in_watch (texts_of words.now) }
{
    match words {
        [] => None,
        [a] => no_name(a.as_str()),
        [a, b] => in_names(a.as_str(), b.as_str()),
        [a, b, c] => in_line(a.as_str(), b.as_str(), c.as_str()),
        [a, b, c, d] => in_lines(a.as_str(), b.as_str(), c.as_str(), d.as_str()),
        [a, b, c, d, e, ..] => {
            match in_lines(a.as_str(), b.as_str(), c.as_str(), d.as_str()) {
                Some(word) => Some(word),
                None => Some(e.as_str()),
            }
        }
    }
}

/// The first word that fits nowhere of a command and its arguments.
fn in_command<'a>(word: &'a str, words: &'a [String]) -> Option<&'a str>
    ensures { option_map (λ w. w.now) result ≡ in_command word.entry.now (texts_of words.now) }
{
    match word {
        "search" => in_search(words),
        "grade" => in_grade(words),
        "watch" => in_watch(words),
        "waits" => in_pair(words),
        "fill" => in_pair(words),
        "follow" => in_follow(words),
        _ => Some(word),
    }
}

/// The first argument that fits nowhere, where the arguments are not a command. None if words are only missing.
pub fn unexpected<'a>(words: &'a [String]) -> Option<&'a str>
    ensures { option_map (λ w. w.now) result ≡ unexpected (texts_of words.now) }
{
    match words.split_first() {
        Some((word, rest)) => in_command(word.as_str(), rest),
        None => None,
    }
}
