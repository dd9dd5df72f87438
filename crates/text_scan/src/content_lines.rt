//! Content lines of an input and their words. Blank lines and comment lines are skipped but counted.
ghost use Rattle.std.specs.Prelude.{◌≡◌, ◌+◌, ◌<◌, ◌≤◌, ◌∷◌, [], length, drop, slice_range, IfSome, IfNone};
ghost use Rattle.text_scan.specs.Lines.{lines, words};
ghost use Rattle.text_scan.specs.UpToFour.{AreWords};
ghost use Rattle.text_scan.specs.ContentLines.{begins_with_hash, is_kept, kept_from, number_of};

use crate::{Decimal, decimal, next_line, next_word};

/// A content line: its bytes are those from `start` to `end`, and the next line begins at `next`. `line` is its
/// number in the text, counted from 1.
#[derive(Clone, Copy)]
pub struct ContentLine {
    pub start: usize,
    pub end: usize,
    pub next: usize,
    pub line: u32,
}

fn is_comment_word(word: &[u8]) -> bool
    ensures { result ≡ begins_with_hash word.now }
{
    match word {
        [first, ..] => *first == b'#',
        [] => false,
    }
}

/// Reports whether the line has content: it is not blank, and its first word does not begin with `#`.
fn is_kept(line: &[u8]) -> bool
    ensures { result ≡ is_kept (words line.now) }
{
    match next_word(line, 0) {
        Some(word) => !is_comment_word(&line[word.start..word.end]),
        None => false,
    }
}

/// Reports the next content line at or after `from`, or `None` if there is none. The line that begins at `from` has
/// the number `line`. Requires a text of at most 67,108,864 bytes.
pub fn next_content_line(bytes: &[u8], from: usize, line: u32) -> Option<ContentLine>
    requires within { from ≤ length bytes.now }
    requires small { length bytes.now ≤ 67108864 }
    requires few { line ≤ from + 1 }
    ensures ordered { IfSome result (λ at. (at.start ≤ at.end) × (at.end ≤ at.next) × (at.next ≤ length bytes.now)) }
    ensures forward { IfSome result (λ at. from < at.next) }
    ensures few { IfSome result (λ at. at.line ≤ at.next) }
    ensures line { IfSome result
        (λ at. kept_from line (lines (drop from bytes.now))
        ≡ record { line = at.line; words = words (slice_range bytes.now at.start at.end) } ∷ kept_from (at.line + 1) (lines (drop at.next bytes.now))) }
    ensures none { IfNone result (kept_from line (lines (drop from bytes.now)) ≡ []) }
{
    let mut at = from;
    let mut number = line;
    while let Some(found) = next_line(bytes, at) {
        if is_kept(&bytes[found.start..found.end]) {
            return Some(ContentLine {
                start: found.start,
                end: found.end,
                next: found.next,
                line: number,
            });
        }
        at = found.next;
        number += 1;
    }
    None
}

/// Reports the number of lines of a text, which has at most 67,108,864 bytes.
pub fn count_lines(bytes: &[u8]) -> u32
    requires { length bytes.now ≤ 67108864 }
    ensures count { result ≡ length (lines bytes.now) }
    ensures few { result ≤ length bytes.now }
{
    let mut at = 0;
    let mut count = 0;
    while let Some(line) = next_line(bytes, at) {
        at = line.next;
        count += 1;
    }
    count
}

/// The words of a line that has at most four, or `Many`.
#[derive(Clone, Copy)]
pub enum UpToFour<'a> {
    Zero,
    One(&'a [u8]),
    Two(&'a [u8], &'a [u8]),
    Three(&'a [u8], &'a [u8], &'a [u8]),
    Four(&'a [u8], &'a [u8], &'a [u8], &'a [u8]),
    Many,
}

/// Reports the words of a line, if it has at most four.
pub fn split_up_to_four(line: &[u8]) -> UpToFour<'_>
    ensures { AreWords (words line.now) result }
{
    let Some(first) = next_word(line, 0) else {
        return UpToFour::Zero;
    };
    let one = &line[first.start..first.end];
    let Some(second) = next_word(line, first.end) else {
        return UpToFour::One(one);
    };
    let two = &line[second.start..second.end];
    let Some(third) = next_word(line, second.end) else {
        return UpToFour::Two(one, two);
    };
    let three = &line[third.start..third.end];
    let Some(fourth) = next_word(line, third.end) else {
        return UpToFour::Three(one, two, three);
    };
    match next_word(line, fourth.end) {
        Some(_) => UpToFour::Many,
        None => UpToFour::Four(one, two, three, &line[fourth.start..fourth.end]),
    }
}

/// Reports the number that a word of digits spells, or 2^63 for every number of 2^63 or more. Reports `None` if the
/// word is empty or a byte is no digit.
pub fn number(word: &[u8]) -> Option<u64>
    ensures { result ≡ number_of word.now }
{
    match decimal(word) {
        Decimal::NotDigits => None,
        Decimal::TooLarge => Some(9223372036854775808),
        Decimal::Value(value) => Some(value),
    }
}
