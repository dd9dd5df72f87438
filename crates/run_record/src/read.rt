//! Reads a record.
ghost use Rattle.std.specs.Prelude.{◌≡◌, ◌+◌, ◌<◌, ◌≤◌, ◌^◌, [], length, IfOk, IfErr, OnOk, Some, None, false, option_map};
ghost use Rattle.std.specs.List.{All};
ghost use Rattle.run_types.specs.declared.types.Line.{Line};
ghost use Rattle.record_writer.specs.Writable.{IsWritable};
ghost use Rattle.run_types.specs.Asks.{request_number_of};
ghost use Rattle.record_parser.specs.Fields.{fields, parts};
ghost use Rattle.run_record.specs.Numbered.{lines_after, names_after};
ghost use Rattle.run_record.specs.ReaderFacts.{IsTable, ReportsFault};
ghost use Rattle.run_record.specs.Posts.{HasPosts};
ghost use Rattle.run_record.specs.Records.{done_of, follows, is_empty, is_end, last_after, record_of, row_fault, row_of, rows, rows_of, tail_row};
ghost use Rattle.run_record.specs.ParsedLines.{row};
ghost use Rattle.record_parser.specs.ReadLineView.{told};

use crate::Posts;
use crate::fault::RecordFault;
use crate::numbered::numbered;
use crate::parsed_line::{ParsedLine, RecordVersion, row_in};
use record_parser::cut;
use run_types::{End, Line, List, Names};
use std::alloc::Global;

/// The number of events that the end line has.
pub fn done_of(end: End) -> u32
    ensures { result ≡ done_of end }
{
    match end {
        End::Quiet { done } => done,
        End::Schedule { done } => done,
        End::Full { done, .. } => done,
    }
}

fn follows(last: u32, line: &Line) -> bool
    requires { last ≤ 2000000 }
    ensures { result ≡ follows last line.now }
{
    match line {
        Line::Event { number, .. } => *number == last + 1 && *number <= 2000000,
        Line::End(end) => done_of(*end) == last,
    }
}

fn last_after(last: u32, line: &Line) -> u32
    ensures { result ≡ last_after last line.now }
{
    match line {
        Line::Event { number, .. } => *number,
        Line::End(_) => last,
    }
}

/// Whether the line is an end line.
pub fn is_end(line: &Line) -> bool
    ensures { result ≡ is_end line.now }
{
    match line {
        Line::Event { .. } => false,
        Line::End(_) => true,
    }
}

/// Parses line `seen + 1` of a text, after an event with the number `last`, or returns its fault.
fn judge<'a>(
    form: RecordVersion,
    posts: &Posts,
    seen: u32,
    last: u32,
    ended: bool,
    line: &'a [u8],
) -> Result<ParsedLine<'a>, RecordFault>
    requires few { seen ≤ 67108864 }
    requires last { last ≤ 2000000 }
    ensures line { IfOk result (λ r. row_of form (fields line.now) ≡ Some (row r)) }
    ensures ok { (earlier : List Line) → HasPosts posts.now earlier → OnOk result (row_fault earlier seen last ended (row_of form (fields line.now)) ≡ None) }
    ensures next { IfOk result (λ r. last_after last r.read.line ≤ 2000000) }
    ensures err { (earlier : List Line) → HasPosts posts.now earlier → IfErr result (λ f. row_fault earlier seen last ended (row_of form (fields line.now)) ≡ Some f) }
{
    let Some(read) = row_in(form, line) else {
        return Err(RecordFault::BadLine { line: seen + 1 });
    };
    if ended || !follows(last, &read.read.line) {
        return Err(RecordFault::OutOfOrder { line: seen + 1 });
    }
    match read.ask {
        None => Ok(read),
        Some(ask) => {
            if ask == posts.ask(&read.read.line) {
                return Ok(read);
            }
            Err(RecordFault::WrongAsk { line: seen + 1 })
        }
    }
}

/// The form of a record's text, the text after the line that names the form, and the number of such lines.
#[derive(Clone, Copy)]
pub struct Opening<'a> {
    pub form: RecordVersion,
    pub text: &'a [u8],
    pub seen: u32,
}

/// The form of a text, by its first line.
#[tactic(auto, using(crate::proofs::ParsedLines::second_rows, crate::proofs::ParsedLines::first_rows))]
fn form_of(bytes: &[u8]) -> Opening<'_>
    ensures rows { rows result.form [] result.seen 0 false (parts 10 result.text.now) ≡ record_of bytes.now }
    ensures shorter { result.seen + length result.text.now ≤ length bytes.now }
{
    let first = cut(b'\n', bytes);
    match first.rest {
        None => Opening {
            form: RecordVersion::First,
            text: bytes,
            seen: 0,
        },
        Some(left) => {
            if first.first == b"record 2".as_slice() {
                return Opening {
                    form: RecordVersion::Second,
                    text: left,
                    seen: 1,
                };
            }
            Opening {
                form: RecordVersion::First,
                text: bytes,
                seen: 0,
            }
        }
    }
}

/// Parses a record in either form, of at most 67,108,864 bytes. Returns its lines, or its first fault, or `Memory` if
/// memory runs out. New names are appended to the table, and stay there after an error.
pub fn read_record(
    alloc: Global,
    bytes: &[u8],
    names: &mut Names,
) -> Result<List<Line>, RecordFault>
    requires small { length bytes.now ≤ 67108864 }
    requires few { length names.old < 2 ^ 31 }
    ensures faultless { OnOk result ((record_of bytes.now).fault ≡ None) }
    ensures lines { IfOk result (λ ls. ls ≡ lines_after names.old (record_of bytes.now).told) }
    ensures names { OnOk result (names.new ≡ names_after names.old (record_of bytes.now).told) }
    ensures writable { IfOk result (All (IsWritable names.new)) }
    ensures fault { IfErr result (λ f. ReportsFault f (record_of bytes.now).fault) }
    ensures kept { IfErr result (λ f. IsTable f names.new names.old (record_of bytes.now).told) }
{
    let mut lines = List::make(alloc);
    let mut posts = Posts::make(alloc);
    let start = form_of(bytes);
    let mut text = start.text;
    let mut seen = start.seen;
    let mut last = 0;
    let mut ended = false;
    'lines: loop {
        let next = cut(b'\n', text);
        let Some(left) = next.rest else {
            if ended && next.first.is_empty() {
                return Ok(lines);
            }
            return Err(RecordFault::BadLine { line: seen + 1 });
        };
        // A `match` instead of `?` keeps the clause of the error.
        let row = match judge(start.form, &posts, seen, last, ended, next.first) {
            Ok(row) => row,
            Err(fault) => return Err(fault),
        };
        last = last_after(last, &row.read.line);
        ended = is_end(&row.read.line);
        match posts.add(&row.read.line) {
            Ok(()) => {}
            Err(_) => return Err(RecordFault::Memory),
        }
        match numbered(names, &row.read) {
            Ok(line) => match lines.push(line) {
                Ok(()) => {}
                Err(_) => return Err(RecordFault::Memory),
            },
            Err(_) => return Err(RecordFault::Memory),
        }
        seen += 1;
        text = left;
    }
}
