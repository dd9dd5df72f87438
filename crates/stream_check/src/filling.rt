//! A record that is being filled.
ghost use Rattle.std.specs.Prelude.{◌≡◌, ◌++◌, ◌∷◌, List, [], Some, IfOk, IfSome, IfNone, OnOk, ℕ, false};
ghost use Rattle.run_types.specs.declared.types.Line.{Line};
ghost use Rattle.pool_relation.specs.Transition.{run};
ghost use Rattle.mesh_semantics.specs.Record.{EndsOnce, labels_of};
ghost use Rattle.pool_semantics.specs.PlainOf.{configuration_of, program_tree, is_spent};
ghost use Rattle.record_check.specs.Verdicts.{StopsLine};
ghost use Rattle.stream_check.specs.Filled.{HaveNoLocal, IsFilled, without_local, without_local_of};
ghost use Rattle.stream_check.specs.FillProgress.{Adds, Begins, Ends, Fills, Passes, Prepares, Quiets, Readies, Settles, Stops, number_after, renumbered};

use crate::fill_lines::{caller_of, shows_local, with_done};
use crate::lines::{is_quiet, next_number};
use crate::local::{MOST_FILLED, make_local, objects_of};
use pool_semantics::{Plain, agent};
use record_check::{follow_line, judge_end};
use run_types::{End, Event, Label, Line, List, Redex, Verdict, What, node_of};
use std::alloc::{AllocError, Global};

/// The lines that were filled so far, the number of the last event among them, and the configuration after them.
#[derive(Drop)]
pub struct Filling<'a> {
    pub plain: Plain<'a>,
    pub lines: List<Line>,
    pub last: u32,
}

impl<'a> Filling<'a> {
    /// Appends a line with the next number. An error means out of memory.
    pub fn push(&mut self, line: &Line) -> Result<(), AllocError>
        ensures lines { OnOk result (self.new.lines ≡ self.old.lines ++ renumbered self.old.last line.now ∷ []) }
        ensures last { OnOk result (self.new.last ≡ number_after self.old.last line.now) }
        ensures plain { self.new.plain ≡ self.old.plain }
    {
        match line {
            Line::Event { event, what, .. } => {
                let number = next_number(self.last);
                self.lines.push(Line::Event {
                    number,
                    event: *event,
                    what: *what,
                })?;
                self.last = number;
                Ok(())
            }
            Line::End(end) => {
                self.lines.push(Line::End(with_done(self.last, *end)))?;
                Ok(())
            }
        }
    }

    /// Appends the lines, but for those of local transitions. An error means out of memory.
    fn push_all(&mut self, lines: &[Line]) -> Result<(), AllocError>
        ensures adds { OnOk result ((added : List Line) × Adds self.old self.new added (without_local lines.now) × HaveNoLocal added) }
        ensures plain { self.new.plain ≡ self.old.plain }
    {
        for line in lines {
            if !shows_local(line) {
                self.push(line)?;
            }
        }
        Ok(())
    }

    /// Makes the local transitions of an object, and appends a line that shows them, if there are any.
    /// Returns whether they are as many as may be. An error means out of memory.
    fn fill(&mut self, object: u32) -> Result<bool, AllocError>
        ensures { IfOk result (λ full. Fills self.old self.new object full) }
    {
        let made = make_local(&mut self.plain, object)?;
        if made == 0 {
            return Ok(false);
        }
        self.push(&Line::Event {
            number: 0,
            event: Event::Turn {
                node: node_of(object),
            },
            what: What::Step {
                label: Label::Local { object },
                times: made,
            },
        })?;
        Ok(made == MOST_FILLED)
    }

    /// Fills in local transitions of the objects that take part in a transition. An error means out of memory.
    fn fill_parties(&mut self, label: &Label) -> Result<(), AllocError>
        ensures { OnOk result (Prepares self.old self.new label.now) }
    {
        if self.fill(agent(label))? {
            return Ok(());
        }
        if let Some(caller) = caller_of(label) {
            self.fill(caller)?;
        }
        Ok(())
    }

    /// Fills in local transitions of the objects that take part in the transition of a line, if it shows one.
    /// An error means out of memory.
    fn fill_before(&mut self, line: &Line) -> Result<(), AllocError>
        ensures { OnOk result (Readies self.old self.new line.now) }
    {
        match line {
            Line::Event { what, .. } => match what {
                What::Step { label, .. } => self.fill_parties(label),
                _ => Ok(()),
            },
            Line::End(_) => Ok(()),
        }
    }

    /// Fills in local transitions of all objects. An error means out of memory.
    fn fill_all(&mut self, alloc: Global) -> Result<(), AllocError>
        ensures { OnOk result (Settles self.old self.new) }
    {
        let objects = objects_of(alloc, &self.plain)?;
        for object in &objects {
            if self.fill(*object)? {
                return Ok(());
            }
        }
        Ok(())
    }

    /// Fills in local transitions of all objects if the end is quiet. An error means out of memory.
    pub fn settle(&mut self, alloc: Global, end: End) -> Result<(), AllocError>
        ensures { OnOk result (Quiets self.old self.new end) }
    {
        if is_quiet(end) {
            self.fill_all(alloc)?;
        }
        Ok(())
    }

    /// Makes the transitions of a line and appends it. Returns the redex of the object whose transition is impossible,
    /// if one is. An error means out of memory.
    fn make(&mut self, line: &Line) -> Result<Option<Redex>, AllocError>
        ensures lines { OnOk result (self.new.lines ≡ self.old.lines ++ renumbered self.old.last line.now ∷ []) }
        ensures last { OnOk result (self.new.last ≡ number_after self.old.last line.now) }
        ensures program { program_tree self.new.plain ≡ program_tree self.old.plain }
        ensures going_on { IfOk result (λ _. is_spent self.old.plain ≡ false → is_spent self.new.plain ≡ false) }
        ensures leads { IfOk result (λ r. IfNone r (run (program_tree self.old.plain) (configuration_of self.old.plain) (labels_of line.now) ≡ Some (configuration_of self.new.plain))) }
        ensures stops { IfOk result (λ r. IfSome r (λ redex. (n : ℕ) × StopsLine (program_tree self.old.plain) (configuration_of self.old.plain) line.now n (configuration_of self.new.plain) redex)) }
    {
        let stop = follow_line(&mut self.plain, line)?;
        self.push(line)?;
        match stop {
            None => Ok(None),
            Some(stop) => Ok(Some(stop.redex)),
        }
    }

    /// Fills a line. Returns the redex of the object whose transition is impossible, if one is.
    /// An error means out of memory.
    pub fn follow(&mut self, line: &Line) -> Result<Option<Redex>, AllocError>
        ensures going_on { IfOk result (λ _. is_spent self.old.plain ≡ false → is_spent self.new.plain ≡ false) }
        ensures grows { IfOk result (λ r. IfNone r (Passes self.old self.new (without_local_of line.now))) }
        ensures stops { IfOk result (λ r. IfSome r (λ redex. Stops self.old self.new line.now redex)) }
    {
        if shows_local(line) {
            return Ok(None);
        }
        self.fill_before(line)?;
        let stop = self.make(line)?;
        Ok(stop)
    }

    /// Fills the end line and judges the lines. An error means out of memory.
    fn finish(&mut self, alloc: Global, end: End) -> Result<Verdict, AllocError>
        requires { is_spent self.old.plain ≡ false }
        ensures { IfOk result (λ v. Ends self.old self.new end v) }
    {
        self.settle(alloc, end)?;
        self.push(&Line::End(end))?;
        Ok(judge_end(&self.plain, self.lines.items()))
    }

    /// Fills the lines and judges them. An error means out of memory.
    pub fn judge(&mut self, alloc: Global, lines: &[Line]) -> Result<Verdict, AllocError>
        requires ended { EndsOnce lines.now }
        requires begun { Begins lines.now self.old }
        ensures { IfOk result (λ v. IsFilled (program_tree self.old.plain) lines.now self.new.lines v) }
    {
        for (place, line) in lines.iter().enumerate() {
            if let Line::End(end) = line {
                return self.finish(alloc, *end);
            }
            if let Some(redex) = self.follow(line)? {
                let number = self.last;
                self.push_all(&lines[place + 1..])?;
                return Ok(Verdict::No { number, redex });
            }
        }
        unreachable!()
    }
}
