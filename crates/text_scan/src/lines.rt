//! Lines of a text, words of a line, and decimal numbers.
ghost use Rattle.std.specs.Prelude.{◌≡◌, ◌+◌, ◌<◌, ◌≤◌, ◌↔◌, [], ◌∷◌, None, IfSome, length, drop, min, slice_range};
ghost use Rattle.std.specs.List.{prefix_len};
ghost use Rattle.text_scan.specs.ByteSets.{is_in};
ghost use Rattle.text_scan.specs.Lines.{lines, words, decimal_of};
ghost use Rattle.text_scan.specs.declared.scan.ByteSet.TheVariants.{NotLineFeed};

use crate::scan::{ByteSet, run_end};
use crate::spans::{Decimal, LineAt, WordAt};

const GREATEST: u64 = 9223372036854775807;

/// Reports the line that begins at `from`, without its line feed and without a carriage return directly before that.
/// Reports `None` at the end of the text.
pub fn next_line(bytes: &[u8], from: usize) -> Option<LineAt>
    requires { from ≤ length bytes.now }
    ensures start { IfSome result (λ at. at.start ≡ from) }
    ensures ordered { IfSome result (λ at. (at.start ≤ at.end) × (at.end ≤ at.next) × (at.next ≤ length bytes.now)) }
    ensures forward { IfSome result (λ at. from < at.next) }
    ensures line { IfSome result
        (λ at. lines (drop from bytes.now) ≡ slice_range bytes.now at.start at.end ∷ lines (drop at.next bytes.now)) }
    // The next line begins after the line feed, or at the end of the text.
    ensures next { IfSome result (λ at. at.next ≡ min (length bytes.now) (from + prefix_len (is_in NotLineFeed) (drop from bytes.now) + 1)) }
    ensures none { (result ≡ None) ↔ (from ≡ length bytes.now) }
{
    if from == bytes.len() {
        return None;
    }
    let feed = run_end(bytes, from, ByteSet::NotLineFeed);
    if feed == bytes.len() {
        return Some(LineAt {
            start: from,
            end: feed,
            next: feed,
        });
    }
    Some(LineAt {
        start: from,
        end: line_end(bytes, from, feed),
        next: feed + 1,
    })
}

/// Reports where the line that begins at `from` ends. Its line feed is at `feed`.
fn line_end(bytes: &[u8], from: usize, feed: usize) -> usize
    requires fed { feed < length bytes.now }
    requires first { feed ≡ from + prefix_len (is_in NotLineFeed) (drop from bytes.now) }
    ensures within { (from ≤ result) × (result ≤ feed) }
    ensures line { lines (drop from bytes.now) ≡ slice_range bytes.now from result ∷ lines (drop (feed + 1) bytes.now) }
{
    if from < feed && bytes[feed - 1] == b'\r' {
        return feed - 1;
    }
    feed
}

/// Reports the first word at or after `from`: a run of bytes other than space and tab. Reports `None` if only blanks
/// are left.
pub fn next_word(line: &[u8], from: usize) -> Option<WordAt>
    requires { from ≤ length line.now }
    ensures ordered { IfSome result (λ at. (from ≤ at.start) × (at.start < at.end) × (at.end ≤ length line.now)) }
    ensures word { IfSome result
        (λ at. words (drop from line.now) ≡ slice_range line.now at.start at.end ∷ words (drop at.end line.now)) }
    ensures none { (result ≡ None) ↔ (words (drop from line.now) ≡ []) }
{
    let start = run_end(line, from, ByteSet::Blank);
    if start == line.len() {
        return None;
    }
    Some(WordAt {
        start,
        end: run_end(line, start, ByteSet::NotBlank),
    })
}

/// Reports the number that the digits of a word spell, if it is below 2^63.
pub fn decimal(word: &[u8]) -> Decimal
    ensures { result ≡ decimal_of word.now }
{
    if word.is_empty() || run_end(word, 0, ByteSet::Digit) < word.len() {
        return Decimal::NotDigits;
    }
    let mut value: u64 = 0;
    for byte in word {
        let digit = u64::from(*byte - b'0');
        if value > (GREATEST - digit) / 10 {
            return Decimal::TooLarge;
        }
        value = value * 10 + digit;
    }
    Decimal::Value(value)
}
