//! The judge of a stream.
ghost use Rattle.std.specs.Prelude.{◌≡◌, ◌++◌, ◌∷◌, ◌<◌, ◌^◌, List, [], length, Some, Bool, true, false, IfOk, IfNone, IfSome, OnOk};
ghost use Rattle.text_scan.specs.Text.{Text};
ghost use Rattle.run_types.specs.declared.types.Line.{Line};
ghost use Rattle.run_types.specs.declared.types.Line.TheVariants as R;
ghost use Rattle.pool_syntax.specs.Terms.{ProgramTree};
ghost use Rattle.pool_syntax.specs.TreeOf.{program_of};
ghost use Rattle.pool_semantics.specs.PlainOf.{configuration_of, program_tree, is_spent};
ghost use Rattle.record_writer.specs.WrittenText.{writes_of, writes_text};
ghost use Rattle.record_check.specs.RecordJudgement.{LeadsTo};
ghost use Rattle.record_parser.specs.Fields.{fields};
ghost use Rattle.record_parser.specs.Lines.{line_of};
ghost use Rattle.run_record.specs.Records.{is_end};
ghost use Rattle.mesh_semantics.specs.Record.{labels_of};
ghost use Rattle.stream_check.specs.Filled.{shows_local};
ghost use Rattle.stream_check.specs.FilledStream.{IsFollowedBy};
ghost use Rattle.stream_check.specs.FillProgress.{Stops, with_done};
ghost use Rattle.stream_check.specs.FillingLines.{IsFilledAfter, IsFilledLine, IsFilledStop, IsFilledVerdict, IsReadyToFill, PassesLine};
ghost use Rattle.stream_check.specs.Progress.{HasRead, IsAfter, IsAfterBy, IsFresh, IsEndVerdict, IsJudgedBy, IsReady, IsVerdictAt, judged_text, stop_by};
ghost use Rattle.stream_check.specs.Stream.{comes_next, cut_off, has_end, stream_lines};

use crate::fill_lines::{shows_local, with_done};
use crate::filling::Filling;
use crate::lines::{comes_next, is_quiet, next_number};
use class_check::Checked;
use pool_semantics::{Plain, agent};
use record_check::{follow_line, verdict_line};
use record_parser::{cut, line_in};
use record_writer::{push_end, push_written};
use run_record::{RecordFault, label_of, numbered_in};
use run_types::{End, Line, List, Names, Redex, Verdict};
use std::alloc::{AllocError, Global};

/// The reason why the judge reads no further.
#[derive(Clone, Copy)]
pub enum Stop {
    /// The verdict. A line is impossible, or the end line has come.
    Judged(Verdict),
    /// A line has no form of a record's line, or is out of order.
    Faulty(RecordFault),
}

/// The stop that a verdict gives.
fn stop_by(verdict: Option<Verdict>) -> Option<Stop>
    ensures { result ≡ stop_by verdict }
{
    match verdict {
        None => None,
        Some(verdict) => Some(Stop::Judged(verdict)),
    }
}

/// The judge of whole lines: the configuration after the lines so far, whether one of them showed a transition, and the
/// number of the last event. If it fills in local transitions, a line that shows some counts as none, and `filling` has
/// the number of the last event of the filled lines. Its list has what is filled in before one line at most.
#[derive(Drop)]
struct Lines<'a> {
    filling: Filling<'a>,
    begun: bool,
    last: u32,
}

/// The judge of a stream. It keeps the configuration after the whole lines so far, and the bytes of a line that is not
/// whole yet. If it fills, it makes the local transitions of the stream itself.
#[derive(Drop)]
pub struct Judge<'a> {
    fills: bool,
    lines: Lines<'a>,
    tail: Vec<u8>,
}

/// The verdict on a stream whose lines are all possible. `plain` is the configuration after the last line.
fn verdict_at(plain: &Plain<'_>, end: End) -> Verdict
    requires { is_spent plain.now ≡ false }
    ensures { (ls : List Line) → has_end ls ≡ false → LeadsTo (program_tree plain.now) ls (configuration_of plain.now)
        → IsEndVerdict (program_tree plain.now) (ls ++ R.End end ∷ []) result }
{
    if !is_quiet(end) {
        return Verdict::Yes;
    }
    match plain.moving() {
        None => Verdict::Yes,
        Some(object) => Verdict::Moving { object },
    }
}

/// Appends what a line writes.
fn push_writes(text: &mut Vec<u8>, names: &Names, line: &Line) -> Result<(), AllocError>
    ensures { OnOk result (text.new.items ≡ text.old.items ++ writes_of names.now line.now) }
{
    match line {
        Line::Event { what, .. } => push_written(text, names, what),
        Line::End(end) => push_end(text, names, *end),
    }
}

/// Appends what a line with a verdict writes, or the line of the verdict if this is `no`.
fn push_verdict(
    alloc: Global,
    text: &mut Vec<u8>,
    names: &Names,
    line: &Line,
    verdict: &Verdict,
) -> Result<(), AllocError>
    ensures { OnOk result (text.new.items ≡ text.old.items ++ judged_text names.now line.now (Some verdict.now)) }
{
    match verdict {
        Verdict::Yes => push_writes(text, names, line),
        no => {
            let words = verdict_line(alloc, no, names)?;
            text.extend_from_slice(&words)
        }
    }
}

impl<'a> Lines<'a> {
    /// Names the root by the first transition of the stream.
    fn begin(&mut self, alloc: Global, program: &Checked<'a>, line: &Line) -> Result<(), AllocError>
        ensures fresh { OnOk result (is_spent self.old.filling.plain ≡ false → is_spent self.new.filling.plain ≡ false) }
        ensures ready { (ls : List Line) → IsAfter (program_of program.now.program.now) ls self.old → OnOk result (IsReady (program_of program.now.program.now) ls line.now self.new) }
        ensures ready_to_fill { (ls : List Line) → IsFilledAfter (program_of program.now.program.now) ls self.old → shows_local line.now ≡ false
            → OnOk result (IsReadyToFill (program_of program.now.program.now) ls line.now self.new) }
    {
        if self.begun {
            return Ok(());
        }
        let Some(steps) = label_of(line) else {
            return Ok(());
        };
        if steps.times == 0 {
            return Ok(());
        }
        self.filling.plain = Plain::make(alloc, program, agent(&steps.label))?;
        self.begun = true;
        Ok(())
    }

    /// Makes the transitions that the line of an event shows. Returns the verdict if one is impossible.
    fn step(&mut self, line: &Line) -> Result<Option<Verdict>, AllocError>
        ensures fresh { IfOk result (λ _. is_spent self.old.filling.plain ≡ false → is_spent self.new.filling.plain ≡ false) }
        ensures verdict { (p : ProgramTree) (ls : List Line) → IsReady p ls line.now self.old → comes_next self.old.last line.now ≡ true → is_end line.now ≡ false
            → IfOk result (λ v. IsVerdictAt p ls line.now self.new v) }
    {
        match follow_line(&mut self.filling.plain, line) {
            Ok(None) => {
                self.last = next_number(self.last);
                Ok(None)
            }
            Ok(Some(stop)) => Ok(Some(Verdict::No {
                number: stop.number,
                redex: stop.redex,
            })),
            Err(_) => Err(AllocError),
        }
    }

    /// Follows a line that has the right number. Returns the verdict if the line is impossible or an end line.
    fn follow(
        &mut self,
        alloc: Global,
        program: &Checked<'a>,
        line: &Line,
    ) -> Result<Option<Verdict>, AllocError>
        requires { is_spent self.old.filling.plain ≡ false }
        ensures fresh { IfOk result (λ _. is_spent self.new.filling.plain ≡ false) }
        ensures verdict { (ls : List Line) → IsAfter (program_of program.now.program.now) ls self.old → comes_next self.old.last line.now ≡ true
            → IfOk result (λ v. IsVerdictAt (program_of program.now.program.now) ls line.now self.new v) }
    {
        match line {
            Line::Event { .. } => {
                self.begin(alloc, program, line)?;
                self.step(line)
            }
            Line::End(end) => Ok(Some(verdict_at(&self.filling.plain, *end))),
        }
    }

    /// Makes the transitions of a line that shows no local ones, and the local ones that must come first. Returns the redex
    /// of the object whose transition is impossible, if one is.
    fn fill_line(&mut self, line: &Line) -> Result<Option<Redex>, AllocError>
        ensures fresh { IfOk result (λ _. is_spent self.old.filling.plain ≡ false → is_spent self.new.filling.plain ≡ false) }
        ensures begun { self.new.begun ≡ self.old.begun }
        ensures last { self.new.last ≡ self.old.last }
        ensures passes { shows_local line.now ≡ false → (self.old.begun ≡ false → labels_of line.now ≡ []) → IfOk result (λ r. IfNone r (PassesLine self.old self.new line.now)) }
        ensures stops { IfOk result (λ r. IfSome r (λ redex. Stops self.old.filling self.new.filling line.now redex)) }
    {
        if !self.begun {
            self.filling.push(line)?;
            return Ok(None);
        }
        let stop = self.filling.follow(line)?;
        Ok(stop)
    }

    /// Makes the transitions that the line of an event shows, and the local ones that must come first. Passes over local
    /// transitions of the stream. Returns the verdict if a transition is impossible.
    fn fill_step(
        &mut self,
        alloc: Global,
        program: &Checked<'a>,
        line: &Line,
    ) -> Result<Option<Verdict>, AllocError>
        ensures fresh { IfOk result (λ _. is_spent self.old.filling.plain ≡ false → is_spent self.new.filling.plain ≡ false) }
        ensures verdict { (ls : List Line) → IsFilledAfter (program_of program.now.program.now) ls self.old → comes_next self.old.last line.now ≡ true → is_end line.now ≡ false
            → IfOk result (λ v. IsFilledVerdict (program_of program.now.program.now) ls line.now v self.new) }
    {
        if shows_local(line) {
            self.last = next_number(self.last);
            return Ok(None);
        }
        self.begin(alloc, program, line)?;
        let stop = self.fill_line(line)?;
        self.filling.lines = List::make(alloc);
        if let Some(redex) = stop {
            return Ok(Some(Verdict::No {
                number: self.filling.last,
                redex,
            }));
        }
        self.last = next_number(self.last);
        Ok(None)
    }

    /// Makes the local transitions that must come before the end, and gives the verdict.
    fn fill_end(&mut self, alloc: Global, end: End) -> Result<Verdict, AllocError>
        requires { is_spent self.old.filling.plain ≡ false }
        ensures fresh { IfOk result (λ _. is_spent self.new.filling.plain ≡ false) }
        ensures verdict { (p : ProgramTree) (ls : List Line) → IsFilledAfter p ls self.old
            → IfOk result (λ v. IsFilledStop p ls (R.End end) (R.End (with_done self.new.filling.last end)) v) }
    {
        self.filling.settle(alloc, end)?;
        let filled = with_done(self.filling.last, end);
        Ok(verdict_at(&self.filling.plain, filled))
    }

    /// Fills in local transitions before a line that has the right number, judges it, and appends what the line or its
    /// verdict writes. The end line has the number of the last event of the filled lines.
    fn judge_filled(
        &mut self,
        alloc: Global,
        program: &Checked<'a>,
        names: &Names,
        line: &Line,
        text: &mut Vec<u8>,
    ) -> Result<Option<Verdict>, AllocError>
        requires fresh { is_spent self.old.filling.plain ≡ false }
        ensures fresh { IfOk result (λ _. is_spent self.new.filling.plain ≡ false) }
        ensures judged { (ls : List Line) → IsFilledAfter (program_of program.now.program.now) ls self.old → comes_next self.old.last line.now ≡ true → IfOk result
            (λ v. (more : Text) × (text.new.items ≡ text.old.items ++ more)
            × IsFilledLine (program_of program.now.program.now) names.now ls line.now v more self.new) }
    {
        match line {
            Line::Event { .. } => match self.fill_step(alloc, program, line)? {
                None => {
                    push_writes(text, names, line)?;
                    Ok(None)
                }
                Some(verdict) => {
                    push_verdict(alloc, text, names, line, &verdict)?;
                    Ok(Some(verdict))
                }
            },
            Line::End(end) => {
                let verdict = self.fill_end(alloc, *end)?;
                let filled = Line::End(with_done(self.filling.last, *end));
                push_verdict(alloc, text, names, &filled, &verdict)?;
                Ok(Some(verdict))
            }
        }
    }

    /// Judges a line without its line feed, and appends what the line or its verdict writes. Fills in local transitions
    /// before it, if it `fills`.
    fn judge_line(
        &mut self,
        alloc: Global,
        program: &Checked<'a>,
        names: &Names,
        fills: bool,
        line: &[u8],
        text: &mut Vec<u8>,
    ) -> Result<Option<Stop>, AllocError>
        requires few { length names.now < 2 ^ 32 }
        requires fresh { is_spent self.old.filling.plain ≡ false }
        ensures fresh { IfOk result (λ _. is_spent self.new.filling.plain ≡ false) }
        ensures judged { (ls : List Line) → IsAfterBy fills (program_of program.now.program.now) ls self.old → IfOk result
            (λ stop. (more : Text) × (text.new.items ≡ text.old.items ++ more)
            × IsJudgedBy fills (program_of program.now.program.now) names.now ls self.old.last (line_of (fields line.now)) stop more self.new) }
    {
        let Some(read) = line_in(line) else {
            return Ok(Some(Stop::Faulty(RecordFault::BadLine {
                line: next_number(self.last),
            })));
        };
        if !comes_next(self.last, &read.line) {
            return Ok(Some(Stop::Faulty(RecordFault::OutOfOrder {
                line: next_number(self.last),
            })));
        }
        let line = numbered_in(names, &read);
        if fills {
            let verdict = self.judge_filled(alloc, program, names, &line, text)?;
            return Ok(stop_by(verdict));
        }
        match self.follow(alloc, program, &line)? {
            None => {
                push_writes(text, names, &line)?;
                Ok(None)
            }
            Some(verdict) => {
                push_verdict(alloc, text, names, &line, &verdict)?;
                Ok(Some(Stop::Judged(verdict)))
            }
        }
    }
}

impl<'a> Judge<'a> {
    /// A judge that has read nothing. If it `fills`, it passes over the local transitions of the stream, and fills in those
    /// that must come first, as `fill_record` does. An error means out of memory.
    pub fn make(alloc: Global, program: &Checked<'a>, fills: bool) -> Result<Judge<'a>, AllocError>
        ensures { IfOk result (λ j. (names : List Text) → HasRead fills (program_of program.now.program.now) names [] j) }
    {
        let plain = Plain::make(alloc, program, 0)?;
        Ok(Judge {
            fills,
            lines: Lines {
                filling: Filling {
                    plain,
                    lines: List::make(alloc),
                    last: 0,
                },
                begun: false,
                last: 0,
            },
            tail: Vec::new(alloc),
        })
    }

    /// Judges the lines that the next bytes of the stream make whole, one after another, and appends what they write.
    /// For an impossible line, and for a quiet end after which an object can move, it appends the verdict instead.
    /// Returns why it reads no further, or None if it reads on. Requires a judge that has not run out of memory.
    /// An error means out of memory, or that an object would have more than 1,000,000 methods under way.
    /// The time is proportional to the bytes and to the transitions that the lines show.
    pub fn read(
        &mut self,
        alloc: Global,
        program: &Checked<'a>,
        names: &Names,
        piece: &[u8],
        text: &mut Vec<u8>,
    ) -> Result<Option<Stop>, AllocError>
        requires few { length names.now < 2 ^ 32 }
        requires fresh { IsFresh self.old }
        ensures { (fills : Bool) (s : Text) → HasRead fills (program_of program.now.program.now) names.now s self.old → IfOk result
            (λ stop. (more : Text) × (text.new.items ≡ text.old.items ++ more)
            × IsFollowedBy fills (program_of program.now.program.now) names.now (s ++ piece.now) (writes_text names.now (stream_lines names.now s) ++ more) stop
            × IfNone stop (HasRead fills (program_of program.now.program.now) names.now (s ++ piece.now) self.new)) }
    {
        let mut rest = piece;
        'lines: loop {
            let next = cut(b'\n', rest);
            self.tail.extend_from_slice(next.first)?;
            let Some(left) = next.rest else {
                return Ok(None);
            };
            match self
                .lines
                .judge_line(alloc, program, names, self.fills, &self.tail, text)
            {
                Ok(None) => {}
                Ok(Some(stop)) => return Ok(Some(stop)),
                Err(_) => return Err(AllocError),
            }
            self.tail.clear();
            rest = left;
        }
    }

    /// The fault of a stream that stops here, before its end line.
    pub fn cut_off(&self) -> RecordFault
        ensures { (fills : Bool) (p : ProgramTree) (names : List Text) (s : Text) → HasRead fills p names s self.now → result ≡ cut_off (stream_lines names s) }
    {
        RecordFault::BadLine {
            line: next_number(self.lines.last),
        }
    }
}
