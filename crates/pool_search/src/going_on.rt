//! Follows the labels of the entries of a whole list, to note which waiters can go on.
ghost use Rattle.std.specs.Prelude.{◌≡◌, ◌<◌, ℕ, Ok, Some, IfOk, IfSome, OnOk, length, slice_get, false};
ghost use Rattle.pool_relation.specs.Transition.{transition};
ghost use Rattle.pool_semantics.specs.PlainOf.{configuration_of, program_tree, is_spent};
ghost use Rattle.pool_search.specs.Entries.{entries, searched};
ghost use Rattle.search_laws.specs.Outcomes.{Passed};
ghost use Rattle.pool_search.specs.Leads.{HasMovedTo, IsLead};
ghost use Rattle.pool_search.specs.KnownWaiters.{AreKnown};

use crate::changes::changed_by;
use crate::explored::{Explored, name_after};
use crate::settling::{make, settle_after};
use label_list::LabelList;
use pool_semantics::Plain;
use run_types::Label;
use std::alloc::{AllocError, Global};
use visited_set::{Entry, Found, Keeps, Waiters};

/// Where a label of an entry leads.
#[derive(Clone, Copy)]
pub enum Lead {
    /// The label is impossible.
    Nowhere,
    /// It leads to the entry with this number.
    To(u32),
    /// The search met a bound, or has no such entry. This does not happen after a search that has kept its whole list.
    Unknown,
}

impl<'a> Explored<'a> {
    /// Settles after a label of entry `at`, and finds the entry there. `made` becomes the label and those that settle
    /// after it. `Unknown` if there is none, or a bound is met. An error means out of memory.
    fn settle_and_find(
        &mut self,
        plain: &mut Plain<'a>,
        at: u32,
        label: &Label,
        made: &mut LabelList,
    ) -> Result<Lead, AllocError>
        requires fresh { is_spent plain.old ≡ false }
        requires program { program_tree plain.old ≡ searched self.old }
        requires exists { at < length (entries self.old) }
        ensures same { entries self.new ≡ entries self.old }
        ensures program { searched self.new ≡ searched self.old }
        ensures led { IfOk result (λ r. (e : Passed) → slice_get (entries self.old) at ≡ Some e → transition (searched self.old) e.configuration label.now ≡ Some (configuration_of plain.old)
            → IsLead (searched self.old) (entries self.old) e label.now made.new r) }
    {
        let Some(after) = name_after(self.kept.next_name(at as usize), label) else {
            return Ok(Lead::Unknown);
        };
        made.clear();
        match settle_after(plain, Keeps::States, label, made) {
            Ok(true) => match self.find(plain, at, after) {
                Ok(Some(to)) => Ok(Lead::To(to)),
                Ok(None) => Ok(Lead::Unknown),
                Err(_) => Err(AllocError),
            },
            Ok(false) => Ok(Lead::Unknown),
            Err(_) => Err(AllocError),
        }
    }

    /// Follows a label of entry `at` by the stepper. `made` becomes the label and those that settle after it. An error
    /// means out of memory.
    pub fn lead(&mut self, at: u32, label: &Label, made: &mut LabelList) -> Result<Lead, AllocError>
        requires { at < length (entries self.old) }
        ensures same { entries self.new ≡ entries self.old }
        ensures program { searched self.new ≡ searched self.old }
        ensures led { IfOk result (λ r. (e : Passed) → slice_get (entries self.old) at ≡ Some e → IsLead (searched self.old) (entries self.old) e label.now made.new r) }
    {
        let mut plain = self.kept.configuration(at as usize)?;
        match make(&mut plain, label) {
            Ok(true) => self.settle_and_find(&mut plain, at, label, made),
            Ok(false) => Ok(Lead::Nowhere),
            Err(_) => Err(AllocError),
        }
    }

    /// The waiters of all entries, none of them known to go on. None if a number of 32 bits is left for no entry or
    /// name. An error means out of memory.
    pub fn waiters(&self, alloc: Global) -> Result<Option<Waiters>, AllocError>
        ensures { IfOk result (λ o. IfSome o (λ w. AreKnown (searched self.now) (entries self.now) w.list.items)) }
    {
        let mut waiters = Waiters::make(alloc);
        for at in 0..self.kept.len() {
            let Ok(entry) = u32::try_from(at) else {
                return Ok(None);
            };
            match self.kept.add_waiters(at, entry, &mut waiters) {
                Ok(true) => {}
                Ok(false) => return Ok(None),
                Err(_) => return Err(AllocError),
            }
        }
        Ok(Some(waiters))
    }

    /// Follows a label of entry `at` by the table of moves. `moved` becomes a list of objects that change on the way.
    /// `Nowhere` also if the label leads to no entry, since choices left it out. An error means out of memory.
    fn lead_known(
        &mut self,
        at: u32,
        label: &Label,
        moved: &mut Vec<u32>,
    ) -> Result<Lead, AllocError>
        requires { at < length (entries self.old) }
        ensures same { entries self.new ≡ entries self.old }
        ensures program { searched self.new ≡ searched self.old }
        ensures led { (to : ℕ) → result ≡ Ok (Lead.To to) → (e : Passed) → slice_get (entries self.old) at ≡ Some e
            → HasMovedTo (searched self.old) (entries self.old) e.next e.configuration label.now moved.new.items to }
    {
        let from = at as usize;
        let Some(after) = name_after(self.kept.next_name(from), label) else {
            return Ok(Lead::Unknown);
        };
        let written = self.kept.written(from);
        match self
            .kept
            .lead(from, label, after, written, Keeps::States, false, moved)
        {
            Ok(Found::Impossible) => Ok(Lead::Nowhere),
            Ok(Found::Absent) => Ok(Lead::Nowhere),
            Ok(Found::At(Entry::Seen(to))) => Ok(Lead::To(to)),
            Ok(_) => Ok(Lead::Unknown),
            Err(_) => Err(AllocError),
        }
    }

    /// The same by the stepper. An error means out of memory.
    fn lead_whole(
        &mut self,
        alloc: Global,
        at: u32,
        label: &Label,
        moved: &mut Vec<u32>,
    ) -> Result<Lead, AllocError>
        requires { at < length (entries self.old) }
        ensures same { entries self.new ≡ entries self.old }
        ensures program { searched self.new ≡ searched self.old }
        ensures led { (to : ℕ) → result ≡ Ok (Lead.To to) → (e : Passed) → slice_get (entries self.old) at ≡ Some e
            → HasMovedTo (searched self.old) (entries self.old) e.next e.configuration label.now moved.new.items to }
    {
        let mut made = LabelList::make(alloc);
        let lead = self.lead(at, label, &mut made)?;
        changed_by(&made, moved)?;
        Ok(lead)
    }

    /// Follows a label of entry `at`, and notes the waiters of the entry that can go on by it. Whether one was noted.
    /// An error means out of memory.
    fn note_by(
        &mut self,
        alloc: Global,
        waiters: &mut Waiters,
        at: u32,
        label: &Label,
        moved: &mut Vec<u32>,
    ) -> Result<bool, AllocError>
        requires exists { at < length (entries self.old) }
        requires known { AreKnown (searched self.old) (entries self.old) waiters.old.list.items }
        ensures same { entries self.new ≡ entries self.old }
        ensures program { searched self.new ≡ searched self.old }
        ensures known { OnOk result (AreKnown (searched self.old) (entries self.old) waiters.new.list.items) }
    {
        let to = match self.lead_known(at, label, moved) {
            Ok(Lead::To(to)) => to,
            Ok(Lead::Nowhere) => return Ok(false),
            Ok(Lead::Unknown) => match self.lead_whole(alloc, at, label, moved) {
                Ok(Lead::To(to)) => to,
                Ok(_) => return Ok(false),
                Err(_) => return Err(AllocError),
            },
            Err(_) => return Err(AllocError),
        };
        let (from, until) = waiters.row(at);
        let mut noted = false;
        for index in from..until {
            if waiters.goes_on_by(index, at, to, moved) {
                waiters.note(index);
                noted = true;
            }
        }
        Ok(noted)
    }

    /// Follows these labels of entry `at`, and notes the waiters of the entry that can go on by them, until all are
    /// noted. Whether one was noted. An error means out of memory.
    fn note_by_all(
        &mut self,
        alloc: Global,
        waiters: &mut Waiters,
        at: u32,
        labels: &[Label],
    ) -> Result<bool, AllocError>
        requires exists { at < length (entries self.old) }
        requires known { AreKnown (searched self.old) (entries self.old) waiters.old.list.items }
        ensures same { entries self.new ≡ entries self.old }
        ensures program { searched self.new ≡ searched self.old }
        ensures known { OnOk result (AreKnown (searched self.old) (entries self.old) waiters.new.list.items) }
    {
        let mut moved = Vec::new(alloc);
        let mut noted = false;
        for label in labels {
            if !waiters.any_open(at) {
                return Ok(noted);
            }
            match self.note_by(alloc, waiters, at, label, &mut moved) {
                Ok(true) => noted = true,
                Ok(false) => {}
                Err(_) => return Err(AllocError),
            }
        }
        Ok(noted)
    }

    /// Notes the waiters of entry `at` that can go on by its labels. Whether one was noted. An error means out of
    /// memory.
    fn note_at(&mut self, alloc: Global, waiters: &mut Waiters, at: u32) -> Result<bool, AllocError>
        requires exists { at < length (entries self.old) }
        requires known { AreKnown (searched self.old) (entries self.old) waiters.old.list.items }
        ensures same { entries self.new ≡ entries self.old }
        ensures program { searched self.new ≡ searched self.old }
        ensures known { OnOk result (AreKnown (searched self.old) (entries self.old) waiters.new.list.items) }
    {
        let mut labels = Vec::new(alloc);
        self.kept.labels(at as usize, &mut labels)?;
        self.note_by_all(alloc, waiters, at, &labels)
    }

    /// Visits the entries, the last first, and notes their waiters that can go on. Whether one was noted. An error
    /// means out of memory.
    fn note_each(&mut self, alloc: Global, waiters: &mut Waiters) -> Result<bool, AllocError>
        requires { AreKnown (searched self.old) (entries self.old) waiters.old.list.items }
        ensures same { entries self.new ≡ entries self.old }
        ensures program { searched self.new ≡ searched self.old }
        ensures known { OnOk result (AreKnown (searched self.old) (entries self.old) waiters.new.list.items) }
    {
        let mut noted = false;
        for at in (0..self.count(u32::MAX)).rev() {
            if waiters.any_open(at) {
                match self.note_at(alloc, waiters, at) {
                    Ok(true) => noted = true,
                    Ok(false) => {}
                    Err(_) => return Err(AllocError),
                }
            }
        }
        Ok(noted)
    }

    /// Visits the entries again and again, until no waiter is noted, and at most 2^32 - 1 times. An error means out of
    /// memory.
    pub fn note_all(&mut self, alloc: Global, waiters: &mut Waiters) -> Result<(), AllocError>
        requires { AreKnown (searched self.old) (entries self.old) waiters.old.list.items }
        ensures same { entries self.new ≡ entries self.old }
        ensures program { searched self.new ≡ searched self.old }
        ensures known { OnOk result (AreKnown (searched self.old) (entries self.old) waiters.new.list.items) }
    {
        for _pass in 0..u32::MAX {
            match self.note_each(alloc, waiters) {
                Ok(true) => {}
                Ok(false) => return Ok(()),
                Err(_) => return Err(AllocError),
            }
        }
        Ok(())
    }
}
