//! The dead objects of an entry, after a search has kept its whole list.
//!
//! Each is checked by itself, so no proof depends on how the waiters were noted.
ghost use Rattle.std.specs.Prelude.{◌≡◌, ◌⊎◌, ◌<◌, ℕ, Ok, Some, IfOk, IfSome, length, slice_get, true, false};
ghost use Rattle.std.specs.List.{filter};
ghost use Rattle.reachability.specs.Labels.{labels_to_try};
ghost use Rattle.run_types.specs.Tables.{Each};
ghost use Rattle.pool_semantics.specs.PlainOf.{configuration_of, program_tree, is_spent};
ghost use Rattle.reachability.specs.Search.{WaitsAt};
ghost use Rattle.search_laws.specs.Outcomes.{Passed};
ghost use Rattle.search_laws.specs.Dead.{IsDead, some_changes};
ghost use Rattle.visited_set.specs.WaiterLists.{HasWaiter};
ghost use Rattle.search_laws.specs.ClosedBeside.{IsReachedInOrder};
ghost use Rattle.pool_search.specs.Entries.{entries, searched};
ghost use Rattle.pool_search.specs.Leads.{IsBeside, IsTriedBeside, OneStaysOn, StaysAt, StaysIn};
ghost use Rattle.pool_search.specs.Progress.{AllInOrder};
ghost use Rattle.pool_search.specs.Trials.{is_asked, is_tried};

use crate::changes::some_changes;
use crate::choices::{Trial, birth_place, is_asked, later};
use crate::explored::Explored;
use crate::going_on::Lead;
use label_list::LabelList;
use pool_semantics::Plain;
use run_types::Label;
use std::alloc::AllocError;
use visited_set::{Waiter, Waiters};

/// An object that waits and may be dead, and the waiters of all entries.
#[derive(Clone, Copy)]
struct Suspect<'b> {
    waiters: &'b Waiters,
    object: u32,
}

/// Whether these labels leave the object as it is, and lead to an entry in which it waits and is not known to go on.
fn is_left(suspect: &Suspect<'_>, made: &LabelList, to: u32) -> bool
    ensures { result ≡ true → (some_changes suspect.now.object made.now ≡ false) × HasWaiter false to suspect.now.object suspect.now.waiters.now.list.items }
{
    !some_changes(suspect.object, made) && suspect.waiters.has(false, to, suspect.object)
}

impl<'a> Explored<'a> {
    /// Whether a label of entry `at` is impossible, or leads to an entry in which the object waits and is not known to
    /// go on, without a change of the object. `Over` if neither is known. `made` becomes the labels of the way there.
    /// An error means out of memory.
    fn is_beside(
        &mut self,
        suspect: &Suspect<'_>,
        at: u32,
        label: &Label,
        made: &mut LabelList,
    ) -> Result<Trial, AllocError>
        requires { at < length (entries self.old) }
        ensures same { entries self.new ≡ entries self.old }
        ensures program { searched self.new ≡ searched self.old }
        ensures beside { IfOk result (λ t. (e : Passed) → slice_get (entries self.old) at ≡ Some e
            → IsTriedBeside (searched self.old) (entries self.old) suspect.now.waiters.now.list.items suspect.now.object e label.now t) }
    {
        match self.lead(at, label, made) {
            Ok(Lead::Nowhere) => Ok(Trial::Tried),
            Ok(Lead::To(to)) => {
                if is_left(suspect, made, to) {
                    Ok(Trial::Led(to))
                } else {
                    Ok(Trial::Over)
                }
            }
            Ok(Lead::Unknown) => Ok(Trial::Over),
            Err(_) => Err(AllocError),
        }
    }

    /// The same of one more label, if it is asked for. `trial` is the result of those before it, and the new result
    /// counts it too.
    fn stays_beside(
        &mut self,
        suspect: &Suspect<'_>,
        at: u32,
        label: &Label,
        served: Option<u32>,
        trial: Trial,
        made: &mut LabelList,
    ) -> Result<Trial, AllocError>
        requires { at < length (entries self.old) }
        ensures same { entries self.new ≡ entries self.old }
        ensures program { searched self.new ≡ searched self.old }
        ensures tried { IfOk result (λ t. is_tried t ≡ true → is_asked served label.now ≡ true → (e : Passed) → slice_get (entries self.old) at ≡ Some e
            → IsBeside (searched self.old) (entries self.old) suspect.now.waiters.now.list.items suspect.now.object e.next e.configuration label.now) }
        ensures led { (i : ℕ) → result ≡ Ok (Trial.Led i) → (trial ≡ Trial.Led i) ⊎ ((e : Passed) → slice_get (entries self.old) at ≡ Some e
            → OneStaysOn (searched self.old) (entries self.old) suspect.now.waiters.now.list.items suspect.now.object at e.next e.configuration served i) }
    {
        if !is_asked(served, label) {
            return Ok(trial);
        }
        match self.is_beside(suspect, at, label, made) {
            Ok(Trial::Tried) => Ok(trial),
            Ok(Trial::Led(to)) => Ok(later(trial, at, to)),
            Ok(Trial::Over) => Ok(Trial::Over),
            Err(_) => Err(AllocError),
        }
    }

    /// The same of all these labels, or of those that the object `served` serves. `Led` if one of them leads so to a
    /// later entry.
    fn are_beside(
        &mut self,
        suspect: &Suspect<'_>,
        at: u32,
        labels: &[Label],
        served: Option<u32>,
        made: &mut LabelList,
    ) -> Result<Trial, AllocError>
        requires { at < length (entries self.old) }
        ensures same { entries self.new ≡ entries self.old }
        ensures program { searched self.new ≡ searched self.old }
        ensures tried { IfOk result (λ t. is_tried t ≡ true → (e : Passed) → slice_get (entries self.old) at ≡ Some e
            → Each (IsBeside (searched self.old) (entries self.old) suspect.now.waiters.now.list.items suspect.now.object e.next e.configuration) (filter (is_asked served) labels.now)) }
        ensures led { (i : ℕ) → result ≡ Ok (Trial.Led i) → (e : Passed) → slice_get (entries self.old) at ≡ Some e
            → OneStaysOn (searched self.old) (entries self.old) suspect.now.waiters.now.list.items suspect.now.object at e.next e.configuration served i }
    {
        let mut trial = Trial::Tried;
        for label in labels {
            match self.stays_beside(suspect, at, label, served, trial, made) {
                Ok(now) => trial = now,
                Err(_) => return Err(AllocError),
            }
            if trial.is_over() {
                return Ok(Trial::Over);
            }
        }
        Ok(trial)
    }

    /// Whether the same holds of all labels that this object serves in entry `at`, they are enough and one of them
    /// leads to a later entry. `labels` are all to try.
    fn stays_by(
        &mut self,
        suspect: &Suspect<'_>,
        at: u32,
        labels: &[Label],
        served: u32,
        made: &mut LabelList,
    ) -> Result<bool, AllocError>
        requires exists { at < length (entries self.old) }
        requires in_order { AllInOrder (entries self.old) }
        requires labels { (e : Passed) → slice_get (entries self.old) at ≡ Some e → labels.now ≡ labels_to_try (searched self.old) e.next e.configuration }
        ensures same { entries self.new ≡ entries self.old }
        ensures program { searched self.new ≡ searched self.old }
        ensures stays { result ≡ Ok true → (e : Passed) → slice_get (entries self.old) at ≡ Some e → StaysIn (searched self.old) (entries self.old) suspect.now.waiters.now.list.items suspect.now.object at e }
    {
        if !self.are_enough(at, labels, served) {
            return Ok(false);
        }
        match self.are_beside(suspect, at, labels, Some(served), made) {
            Ok(Trial::Led(_)) => Ok(true),
            Ok(_) => Ok(false),
            Err(_) => Err(AllocError),
        }
    }

    /// Whether this is so for some object.
    fn stays_by_choice(
        &mut self,
        suspect: &Suspect<'_>,
        at: u32,
        labels: &[Label],
        made: &mut LabelList,
    ) -> Result<bool, AllocError>
        requires exists { at < length (entries self.old) }
        requires in_order { AllInOrder (entries self.old) }
        requires labels { (e : Passed) → slice_get (entries self.old) at ≡ Some e → labels.now ≡ labels_to_try (searched self.old) e.next e.configuration }
        ensures same { entries self.new ≡ entries self.old }
        ensures program { searched self.new ≡ searched self.old }
        ensures stays { result ≡ Ok true → (e : Passed) → slice_get (entries self.old) at ≡ Some e → StaysIn (searched self.old) (entries self.old) suspect.now.waiters.now.list.items suspect.now.object at e }
    {
        for served in 0..self.kept.next_name(at as usize) {
            match self.stays_by(suspect, at, labels, served, made) {
                Ok(true) => return Ok(true),
                Ok(false) => {}
                Err(_) => return Err(AllocError),
            }
        }
        Ok(false)
    }

    /// Whether the same holds of all labels of entry `at`, or of those that some awaited object serves. `labels` are
    /// all to try.
    fn stays_by_trials(
        &mut self,
        suspect: &Suspect<'_>,
        at: u32,
        labels: &[Label],
        made: &mut LabelList,
    ) -> Result<bool, AllocError>
        requires exists { at < length (entries self.old) }
        requires in_order { AllInOrder (entries self.old) }
        requires labels { (e : Passed) → slice_get (entries self.old) at ≡ Some e → labels.now ≡ labels_to_try (searched self.old) e.next e.configuration }
        ensures same { entries self.new ≡ entries self.old }
        ensures program { searched self.new ≡ searched self.old }
        ensures stays { result ≡ Ok true → (e : Passed) → slice_get (entries self.old) at ≡ Some e → StaysIn (searched self.old) (entries self.old) suspect.now.waiters.now.list.items suspect.now.object at e }
    {
        match self.stays_by_choice(suspect, at, labels, made) {
            Ok(true) => Ok(true),
            Ok(false) => match self.are_beside(suspect, at, labels, None, made) {
                Ok(trial) => Ok(!trial.is_over()),
                Err(_) => Err(AllocError),
            },
            Err(_) => Err(AllocError),
        }
    }

    /// Whether the same holds of the first label of entry `at` that creates an object. `labels` are all to try.
    fn stays_by_birth(
        &mut self,
        suspect: &Suspect<'_>,
        at: u32,
        labels: &[Label],
        made: &mut LabelList,
    ) -> Result<bool, AllocError>
        requires exists { at < length (entries self.old) }
        ensures same { entries self.new ≡ entries self.old }
        ensures program { searched self.new ≡ searched self.old }
        ensures stays { result ≡ Ok true → (e : Passed) → slice_get (entries self.old) at ≡ Some e → StaysIn (searched self.old) (entries self.old) suspect.now.waiters.now.list.items suspect.now.object at e }
    {
        let Some(place) = birth_place(labels, self.kept.next_name(at as usize)) else {
            return Ok(false);
        };
        let Some(label) = labels.get(place) else {
            return Ok(false);
        };
        match self.is_beside(suspect, at, label, made) {
            Ok(Trial::Led(_)) => Ok(true),
            Ok(_) => Ok(false),
            Err(_) => Err(AllocError),
        }
    }

    /// Whether the same holds of all labels of entry `at`, or of a creation alone, or of those that some awaited object
    /// serves. `labels` are all to try.
    fn stays_where(
        &mut self,
        suspect: &Suspect<'_>,
        at: u32,
        labels: &[Label],
        made: &mut LabelList,
    ) -> Result<bool, AllocError>
        requires exists { at < length (entries self.old) }
        requires in_order { AllInOrder (entries self.old) }
        requires labels { (e : Passed) → slice_get (entries self.old) at ≡ Some e → labels.now ≡ labels_to_try (searched self.old) e.next e.configuration }
        ensures same { entries self.new ≡ entries self.old }
        ensures program { searched self.new ≡ searched self.old }
        ensures stays { result ≡ Ok true → (e : Passed) → slice_get (entries self.old) at ≡ Some e → StaysIn (searched self.old) (entries self.old) suspect.now.waiters.now.list.items suspect.now.object at e }
    {
        match self.stays_by_birth(suspect, at, labels, made) {
            Ok(true) => Ok(true),
            Ok(false) => self.stays_by_trials(suspect, at, labels, made),
            Err(_) => Err(AllocError),
        }
    }

    /// The same of the entry with this number. `false` if there is no such entry. An error means out of memory.
    fn stays_in(&mut self, suspect: &Suspect<'_>, at: u32) -> Result<bool, AllocError>
        requires in_order { AllInOrder (entries self.old) }
        ensures same { entries self.new ≡ entries self.old }
        ensures program { searched self.new ≡ searched self.old }
        ensures stays { result ≡ Ok true → (e : Passed) → slice_get (entries self.old) at ≡ Some e → StaysIn (searched self.old) (entries self.old) suspect.now.waiters.now.list.items suspect.now.object at e }
    {
        if at as usize >= self.kept.len() {
            return Ok(false);
        }
        let mut labels = Vec::new(self.kept.alloc());
        self.kept.labels(at as usize, &mut labels)?;
        let mut made = LabelList::make(self.kept.alloc());
        self.stays_where(suspect, at, &labels, &mut made)
    }

    /// The same of the entry of a waiter, if the waiter is the object and not known to go on.
    fn stays_at(&mut self, suspect: &Suspect<'_>, waiter: Waiter) -> Result<bool, AllocError>
        requires in_order { AllInOrder (entries self.old) }
        ensures same { entries self.new ≡ entries self.old }
        ensures program { searched self.new ≡ searched self.old }
        ensures stays { result ≡ Ok true → StaysAt (searched self.old) (entries self.old) suspect.now.waiters.now.list.items suspect.now.object waiter }
    {
        if waiter.object != suspect.object {
            return Ok(true);
        }
        if waiter.goes_on {
            return Ok(true);
        }
        self.stays_in(suspect, waiter.entry)
    }

    /// The same of all entries in which the object waits and is not known to go on. An error means out of memory.
    fn stays(&mut self, suspect: &Suspect<'_>) -> Result<bool, AllocError>
        requires in_order { AllInOrder (entries self.old) }
        ensures same { entries self.new ≡ entries self.old }
        ensures program { searched self.new ≡ searched self.old }
        ensures stays { result ≡ Ok true → Each (StaysAt (searched self.old) (entries self.old) suspect.now.waiters.now.list.items suspect.now.object) suspect.now.waiters.now.list.items }
    {
        for waiter in suspect.waiters.list.as_slice() {
            match self.stays_at(suspect, *waiter) {
                Ok(true) => {}
                Ok(false) => return Ok(false),
                Err(_) => return Err(AllocError),
            }
        }
        Ok(true)
    }

    /// Whether the object, which waits in entry `at`, is dead there. `false` also if this is not known. An error means
    /// out of memory.
    fn is_dead(&mut self, waiters: &Waiters, at: u32, object: u32) -> Result<bool, AllocError>
        requires { AllInOrder (entries self.old) }
        ensures same { entries self.new ≡ entries self.old }
        ensures program { searched self.new ≡ searched self.old }
        ensures dead { result ≡ Ok true → (e : Passed) → slice_get (entries self.old) at ≡ Some e → IsReachedInOrder (searched self.old) e.next e.configuration
            → WaitsAt (searched self.old) e.configuration object → IsDead (searched self.old) e.configuration object }
    {
        if !waiters.has(false, at, object) {
            return Ok(false);
        }
        self.stays(&Suspect { waiters, object })
    }

    /// The dead objects of entry `at`, where the stepper is. Not all, if some are not known. An error means out of
    /// memory.
    pub fn dead_at(
        &mut self,
        waiters: &Waiters,
        plain: &Plain<'_>,
        at: u32,
    ) -> Result<Vec<u32>, AllocError>
        requires program { program_tree plain.now ≡ searched self.old }
        requires in_order { AllInOrder (entries self.old) }
        requires there { IfSome (slice_get (entries self.old) at) (λ e. configuration_of plain.now ≡ e.configuration) }
        ensures { IfOk result (λ v. (e : Passed) → slice_get (entries self.old) at ≡ Some e → IsReachedInOrder (searched self.old) e.next e.configuration
            → Each (IsDead (searched self.old) e.configuration) v.items) }
    {
        let mut names = Vec::new(self.kept.alloc());
        let mut from = 0;
        while let Some(waiting) = plain.waiting(from) {
            match self.is_dead(waiters, at, waiting.object) {
                Ok(true) => names.push(waiting.object)?,
                Ok(false) => {}
                Err(_) => return Err(AllocError),
            }
            match waiting.object.checked_add(1) {
                Some(next) => from = next,
                None => return Ok(names),
            }
        }
        Ok(names)
    }

    /// The dead objects of the entry with the configuration where the stepper is, this next name, and what was written
    /// before entry `at`. None if there is no such entry, or none is known to be dead. An error means out of memory.
    pub fn dead_where(
        &mut self,
        waiters: &Waiters,
        plain: &Plain<'a>,
        at: u32,
        next: u32,
    ) -> Result<Option<Vec<u32>>, AllocError>
        requires exists { at < length (entries self.old) }
        requires fresh { is_spent plain.now ≡ false }
        requires program { program_tree plain.now ≡ searched self.old }
        requires in_order { AllInOrder (entries self.old) }
        ensures { IfOk result (λ r. IfSome r (λ names. IsReachedInOrder (program_tree plain.now) next (configuration_of plain.now)
            → (0 < length names.items) × Each (IsDead (program_tree plain.now) (configuration_of plain.now)) names.items)) }
    {
        match self.find(plain, at, next) {
            Ok(Some(place)) => {
                let names = self.dead_at(waiters, plain, place)?;
                if names.is_empty() {
                    Ok(None)
                } else {
                    Ok(Some(names))
                }
            }
            Ok(None) => Ok(None),
            Err(_) => Err(AllocError),
        }
    }
}
