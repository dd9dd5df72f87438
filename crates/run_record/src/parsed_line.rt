//! Parses a line with the request number that it carries.
ghost use Rattle.std.specs.Prelude.{◌≡◌, [], ◌∷◌, ◌++◌, option_map, IfSome, IfNone};
ghost use Rattle.record_parser.specs.Fields.{count_of, fields, parts};
ghost use Rattle.run_types.specs.Partial.{only_if, ◌>>=◌ as then_some};
ghost use Rattle.record_parser.specs.Lines.{line_of};
ghost use Rattle.run_record.specs.Records.{asked_by, asked_for, row_of, second_of, unasked, unnumbered};
ghost use Rattle.run_record.specs.ParsedLines.{carried, row};
ghost use Rattle.record_parser.specs.ReadLineView.{told};

use record_parser::{ReadLine, count, line_in};
use record_writer::is_asked;

/// The two forms of a record.
#[derive(Clone, Copy)]
pub enum RecordVersion {
    First,
    Second,
}

/// A parsed line, and the request number that it carries, if it carries one.
#[derive(Clone, Copy)]
pub struct ParsedLine<'a> {
    pub read: ReadLine<'a>,
    pub ask: Option<u32>,
}

/// The texts before and after the last space.
#[derive(Clone, Copy)]
pub struct SplitAtLast<'a> {
    pub front: &'a [u8],
    pub last: &'a [u8],
}

/// The text before ` by` and a number, and the number.
#[derive(Clone, Copy)]
pub struct WithRequest<'a> {
    pub front: &'a [u8],
    pub ask: u32,
}

/// Cuts a text at its last space. None if there is none.
#[tactic(auto, using(crate::proofs::RequestSuffix::last_cut))]
fn cut_last(text: &[u8]) -> Option<SplitAtLast<'_>>
    ensures some { IfSome result (λ b. fields text.now ≡ fields b.front.now ++ b.last.now ∷ []) }
    ensures none { IfNone result (fields text.now ≡ text.now ∷ []) }
{
    let mut at = text.len();
    while at > 0 {
        if text[at - 1] == b' ' {
            return Some(SplitAtLast {
                front: &text[0..at - 1],
                last: &text[at..text.len()],
            });
        }
        at -= 1;
    }
    None
}

/// Cuts off ` by` and a number at the end of a line. None if the line does not end so.
#[tactic(auto, using(crate::proofs::RequestSuffix::asked_one, crate::proofs::RequestSuffix::asked_two, crate::proofs::RequestSuffix::carried_not, crate::proofs::RequestSuffix::carried_is))]
fn carried_in(line: &[u8]) -> Option<WithRequest<'_>>
    ensures { option_map carried result ≡ asked_by (fields line.now) }
{
    let Some(behind) = cut_last(line) else {
        return None;
    };
    let Some(before) = cut_last(behind.front) else {
        return None;
    };
    if before.last != b"by".as_slice() {
        return None;
    }
    match count(behind.last) {
        None => None,
        Some(ask) => Some(WithRequest {
            front: before.front,
            ask,
        }),
    }
}

fn unnumbered_in(line: &[u8]) -> Option<ParsedLine<'_>>
    ensures { option_map row result ≡ then_some (line_of (fields line.now)) unnumbered }
{
    match line_in(line) {
        None => None,
        Some(read) => Some(ParsedLine { read, ask: None }),
    }
}

fn unasked_in(line: &[u8]) -> Option<ParsedLine<'_>>
    ensures { option_map row result ≡ then_some (line_of (fields line.now)) unasked }
{
    match line_in(line) {
        None => None,
        Some(read) => {
            if is_asked(&read.line) {
                return None;
            }
            Some(ParsedLine { read, ask: None })
        }
    }
}

fn asked_for(ask: u32, line: &[u8]) -> Option<ParsedLine<'_>>
    ensures { option_map row result ≡ then_some (line_of (fields line.now)) (asked_for ask) }
{
    match line_in(line) {
        None => None,
        Some(read) => {
            if is_asked(&read.line) {
                return Some(ParsedLine {
                    read,
                    ask: Some(ask),
                });
            }
            None
        }
    }
}

fn asked_in(line: &[u8]) -> Option<ParsedLine<'_>>
    ensures { option_map row result ≡ then_some (asked_by (fields line.now)) (λ r. then_some (line_of r.0) (asked_for r.1)) }
{
    match carried_in(line) {
        None => None,
        Some(carried) => asked_for(carried.ask, carried.front),
    }
}

/// Parses a line of the second form, without its line feed.
fn second_in(line: &[u8]) -> Option<ParsedLine<'_>>
    ensures { option_map row result ≡ second_of (fields line.now) }
{
    match unasked_in(line) {
        Some(row) => Some(row),
        None => asked_in(line),
    }
}

/// Parses a line of this form, without its line feed. None exactly if it has no form of such a line.
pub fn row_in(form: RecordVersion, line: &[u8]) -> Option<ParsedLine<'_>>
    ensures { option_map row result ≡ row_of form (fields line.now) }
{
    match form {
        RecordVersion::First => unnumbered_in(line),
        RecordVersion::Second => second_in(line),
    }
}
