//! The visited set of a search, and the expansion of its entries.
ghost use Rattle.std.specs.Prelude.{◌≡◌, ◌⊎◌, ◌+◌, ◌++◌, ◌∷◌, ◌<◌, ◌≤◌, ℕ, Ok, Some, None, IfOk, IfSome, get_or, length, slice_get, min, [], true, false};
ghost use Rattle.pool_syntax.specs.TreeOf.{program_of};
ghost use Rattle.pool_relation.specs.Transition.{transition};
ghost use Rattle.pool_semantics.specs.PlainOf.{configuration_of, program_tree, is_spent};
ghost use Rattle.std.specs.List.{filter};
ghost use Rattle.run_types.specs.declared.types.Label.{Label as OneLabel};
ghost use Rattle.pool_relation.specs.Configuration.{Configuration};
ghost use Rattle.reachability.specs.Search.{IsInOrder, after};
ghost use Rattle.search_laws.specs.Stubborn.{IsAwaited, is_served};
ghost use Rattle.reachability.specs.Labels.{labels_to_try};
ghost use Rattle.search_laws.specs.Outcomes.{Passed};
ghost use Rattle.search_laws.specs.Tried.{AllLeadInto, IsExpanded, IsLabelTried, LeadsAt, states_only};
ghost use Rattle.visited_set.specs.Courses.{course_of};
ghost use Rattle.pool_search.specs.CutOff.{IsCutOff};
ghost use Rattle.pool_search.specs.Entries.{IsEntryAt, IsPassedOver, entries, lists, searched};
ghost use Rattle.pool_search.specs.Trials.{CanMove, is_asked, is_tried, OneLeadsOn, SettlesAt};
ghost use Rattle.visited_set.specs.VisitedConfigurations.{entry};
ghost use Rattle.pool_search.specs.Progress.{AllInOrder, AllReached, Grows, IsReachedWith, IsSearchedTo, HasSearched};

use crate::causes::{fullest, member};
use crate::choices::{Trial, birth_place, is_again, is_asked, later, serves_some};
use crate::classifier::{Classification, judge};
use crate::progress::Progress;
use crate::queries::{Cause, Member, Query};
use crate::scope::Scope;
use crate::settling::settle;
use pool_semantics::{Plain, Refuse};
use pool_syntax::Program;
use run_types::Label;
use std::alloc::{AllocError, Global};
use visited_set::{Entry, Found, Hints, Keeps, VisitedSet, has_bit, item_of};

/// How the search came to an entry: the number of its parent,
/// and the index of the label in the parent's list of labels.
#[derive(Clone, Copy)]
pub struct Origin {
    pub from: u32,
    pub label: u32,
}

/// The visited set, and the origin of each entry.
#[derive(Drop)]
pub struct Explored<'a> {
    pub kept: VisitedSet<'a>,
    pub origins: Vec<Origin>,
    /// The object that made the last transition where settling met its bound.
    pub endless: Option<Member>,
}

/// The result of a visit of one entry.
#[derive(Clone, Copy)]
pub enum Visit {
    /// The query does not look for it, and its labels were tried.
    Done,
    /// The query looks for it.
    Shown,
    /// The search met a bound.
    Over,
}

/// The result of a visit of all entries.
#[derive(Clone, Copy)]
pub enum RunEnd {
    /// The query looks for none of them.
    Whole,
    /// The query looks for the entry with this number.
    Shown(u32),
    /// The search met a bound.
    Over,
}

/// The next free name after a label. None if all names of 32 bits are used.
pub fn name_after(next: u32, label: &Label) -> Option<u32>
    ensures { IfSome result (λ n. n ≡ after next label.now) }
{
    match label {
        Label::New { .. } => next.checked_add(1),
        _ => Some(next),
    }
}

/// An index as a number of 32 bits. Larger ones become the greatest number.
fn number(place: usize) -> u32 {
    u32::try_from(place).unwrap_or(u32::MAX)
}

impl<'a> Explored<'a> {
    /// An empty visited set for this program.
    pub fn make(alloc: Global, program: &'a Program) -> Explored<'a>
        ensures program { searched result ≡ program_of program.now }
        ensures none { entries result ≡ [] }
        ensures lists { lists result ≡ [] ∷ [] }
    {
        Explored {
            kept: VisitedSet::empty(alloc, program),
            origins: Vec::new(alloc),
            endless: None,
        }
    }

    /// The number of entries, but at most `most`.
    pub fn count(&self, most: u32) -> u32
        ensures { result ≡ min (length (entries self.now)) most }
    {
        self.kept.len().min(most as usize) as u32
    }

    /// Why the search ended, if it does not know the answer. An error means out of memory.
    pub fn cause(&self, most: u32) -> Result<Cause, AllocError>
        ensures { IfOk result (λ why. IsCutOff most (min (length (entries self.now)) most) why) }
    {
        if let Some(last) = self.endless {
            return Ok(Cause::Transitions(last));
        }
        let beyond = most as usize;
        if self.kept.len() <= beyond {
            return Ok(Cause::Limit);
        }
        let plain = self.kept.configuration(beyond)?;
        Ok(Cause::Bound(fullest(plain.state())?))
    }

    /// Adds a configuration with the number of what was written, unless the set has it. Returns the number of its
    /// entry. None if a bound is met: the set is full, or it would have more than `most` entries. An error means out of
    /// memory.
    fn keep(
        &mut self,
        plain: &Plain<'a>,
        next: u32,
        written: u32,
        origin: Origin,
        scope: Scope,
    ) -> Result<Option<u32>, AllocError>
        requires fresh { is_spent plain.now ≡ false }
        requires program { program_tree plain.now ≡ searched self.old }
        requires named { written < length (lists self.old) }
        requires reached { IsReachedWith (searched self.old) (course_of scope.keeps) (get_or (lists self.old) written []) (configuration_of plain.now) }
        ensures program { searched self.new ≡ searched self.old }
        ensures grows { IfOk result (λ o. IfSome o (λ _. Grows (searched self.old) (course_of scope.keeps) scope.most (entries self.old) (entries self.new))) }
        ensures there { IfOk result (λ o. IfSome o (λ i. slice_get (entries self.new) i ≡ Some (entry next (get_or (lists self.old) written []) (configuration_of plain.now)))) }
    {
        match self.kept.keep(plain, next, written)? {
            None => Ok(None),
            Some(Entry::Seen(number)) => Ok(Some(number)),
            Some(Entry::Added(number)) => {
                if number >= scope.most {
                    return Ok(None);
                }
                self.origins.push(origin)?;
                Ok(Some(number))
            }
        }
    }

    /// The number of the entry with the configuration where the stepper is, this next name, and what was written before
    /// entry `at`. None if it is not found. An error means out of memory.
    pub fn find(&mut self, plain: &Plain<'a>, at: u32, next: u32) -> Result<Option<u32>, AllocError>
        requires fresh { is_spent plain.now ≡ false }
        requires program { program_tree plain.now ≡ searched self.old }
        requires exists { at < length (entries self.old) }
        ensures same { entries self.new ≡ entries self.old }
        ensures program { searched self.new ≡ searched self.old }
        ensures found { IfOk result (λ o. IfSome o (λ i. IsEntryAt (entries self.old) i next (configuration_of plain.now))) }
    {
        let written = self.kept.written(at as usize);
        self.kept.find(plain, next, written)
    }

    /// Settles a configuration and adds the result. Returns the number of its entry. None if a bound is met. An error
    /// means out of memory.
    pub fn settle_and_keep(
        &mut self,
        plain: &mut Plain<'a>,
        next: u32,
        written: u32,
        origin: Origin,
        scope: Scope,
    ) -> Result<Option<u32>, AllocError>
        requires fresh { is_spent plain.old ≡ false }
        requires program { program_tree plain.old ≡ searched self.old }
        requires named { written < length (lists self.old) }
        requires reached { IsReachedWith (searched self.old) (course_of scope.keeps) (get_or (lists self.old) written []) (configuration_of plain.old) }
        ensures program { searched self.new ≡ searched self.old }
        ensures grows { IfOk result (λ o. IfSome o (λ _. Grows (searched self.old) (course_of scope.keeps) scope.most (entries self.old) (entries self.new))) }
        ensures leads { IfOk result (λ o. IfSome o (λ i. SettlesAt (searched self.old) (course_of scope.keeps) (entries self.new) next (get_or (lists self.old) written []) (configuration_of plain.old) i)) }
    {
        match settle(plain, scope.keeps) {
            Ok(None) => self.keep(plain, next, written, origin, scope),
            Ok(Some(last)) => {
                self.endless = member(plain.state(), last);
                Ok(None)
            }
            Err(_) => Err(AllocError),
        }
    }

    /// The number of what was written after this label, if the search keeps it. None if no number of 32 bits is left.
    /// An error means out of memory.
    fn written_after(
        &mut self,
        keeps: Keeps,
        before: u32,
        label: &Label,
    ) -> Result<Option<u32>, AllocError>
        requires { before < length (lists self.old) }
        ensures program { searched self.new ≡ searched self.old }
        ensures same { entries self.new ≡ entries self.old }
        ensures number { IfOk result (λ o. IfSome o (λ n. (get_or (lists self.new) n [] ≡ get_or (lists self.old) before [] ++ (course_of keeps).keeps label.now) × (n < length (lists self.new)))) }
    {
        match keeps {
            Keeps::States => Ok(Some(before)),
            Keeps::Writes => match item_of(label) {
                Some(item) => self.kept.write(before, item),
                None => Ok(Some(before)),
            },
        }
    }

    /// Tries a label of the entry `origin.from` by the table of moves. None if that does not tell where the label
    /// leads. An error means out of memory.
    fn follow_known(
        &mut self,
        label: &Label,
        origin: Origin,
        scope: Scope,
    ) -> Result<Option<Trial>, AllocError>
        requires exists { origin.from < length (entries self.old) }
        requires reached { AllReached (searched self.old) (course_of scope.keeps) (entries self.old) }
        ensures program { searched self.new ≡ searched self.old }
        ensures same { result ≡ Ok None → entries self.new ≡ entries self.old }
        ensures grows { IfOk result (λ o. IfSome o (λ t. is_tried t ≡ true → Grows (searched self.old) (course_of scope.keeps) scope.most (entries self.old) (entries self.new))) }
        ensures impossible { result ≡ Ok (Some Trial.Tried) → (e : Passed) → slice_get (entries self.old) origin.from ≡ Some e → transition (searched self.old) e.configuration label.now ≡ None }
        ensures led { (i : ℕ) → result ≡ Ok (Some (Trial.Led i)) → (e : Passed) → slice_get (entries self.old) origin.from ≡ Some e
            → LeadsAt (searched self.old) (course_of scope.keeps) (entries self.new) e.next e.items e.configuration label.now i }
    {
        let from = origin.from as usize;
        let Some(after) = name_after(self.kept.next_name(from), label) else {
            return Ok(None);
        };
        let before = self.kept.written(from);
        let Some(written) = self.written_after(scope.keeps, before, label)? else {
            return Ok(None);
        };
        let mut moved = Vec::new(self.kept.alloc());
        match self
            .kept
            .lead(from, label, after, written, scope.keeps, true, &mut moved)
        {
            Ok(Found::Unknown) => Ok(None),
            Ok(Found::Absent) => Ok(None),
            Ok(Found::Impossible) => Ok(Some(Trial::Tried)),
            Ok(Found::At(Entry::Seen(number))) => Ok(Some(Trial::Led(number))),
            Ok(Found::At(Entry::Added(number))) => {
                if number >= scope.most {
                    return Ok(Some(Trial::Over));
                }
                self.origins.push(origin)?;
                Ok(Some(Trial::Led(number)))
            }
            Err(_) => Err(AllocError),
        }
    }

    /// Tries a label of the entry `origin.from`, where the stepper is. An error means out of memory.
    fn follow_from(
        &mut self,
        plain: &mut Plain<'a>,
        label: &Label,
        origin: Origin,
        scope: Scope,
    ) -> Result<Trial, AllocError>
        requires fresh { is_spent plain.old ≡ false }
        requires same { program_tree plain.old ≡ searched self.old }
        requires at { IfSome (slice_get (entries self.old) origin.from) (λ e. configuration_of plain.old ≡ e.configuration) }
        requires exists { origin.from < length (entries self.old) }
        requires reached { AllReached (searched self.old) (course_of scope.keeps) (entries self.old) }
        ensures program { searched self.new ≡ searched self.old }
        ensures grows { IfOk result (λ t. is_tried t ≡ true → Grows (searched self.old) (course_of scope.keeps) scope.most (entries self.old) (entries self.new)) }
        ensures impossible { result ≡ Ok Trial.Tried → (e : Passed) → slice_get (entries self.old) origin.from ≡ Some e → transition (searched self.old) e.configuration label.now ≡ None }
        ensures led { (i : ℕ) → result ≡ Ok (Trial.Led i) → (e : Passed) → slice_get (entries self.old) origin.from ≡ Some e
            → LeadsAt (searched self.old) (course_of scope.keeps) (entries self.new) e.next e.items e.configuration label.now i }
    {
        let from = origin.from as usize;
        match plain.apply(label) {
            Ok(()) => {}
            Err(Refuse::NotPossible { .. }) => return Ok(Trial::Tried),
            Err(Refuse::Memory) => return Err(AllocError),
        }
        let Some(after) = name_after(self.kept.next_name(from), label) else {
            return Ok(Trial::Over);
        };
        let before = self.kept.written(from);
        let written = match self.written_after(scope.keeps, before, label) {
            Ok(Some(written)) => written,
            Ok(None) => return Ok(Trial::Over),
            Err(_) => return Err(AllocError),
        };
        match self.settle_and_keep(plain, after, written, origin, scope) {
            Ok(Some(place)) => Ok(Trial::Led(place)),
            Ok(None) => Ok(Trial::Over),
            Err(_) => Err(AllocError),
        }
    }

    /// Tries a label of the entry `origin.from` by the stepper. An error means out of memory.
    fn follow_whole(
        &mut self,
        label: &Label,
        origin: Origin,
        scope: Scope,
    ) -> Result<Trial, AllocError>
        requires exists { origin.from < length (entries self.old) }
        requires reached { AllReached (searched self.old) (course_of scope.keeps) (entries self.old) }
        ensures program { searched self.new ≡ searched self.old }
        ensures grows { IfOk result (λ t. is_tried t ≡ true → Grows (searched self.old) (course_of scope.keeps) scope.most (entries self.old) (entries self.new)) }
        ensures impossible { result ≡ Ok Trial.Tried → (e : Passed) → slice_get (entries self.old) origin.from ≡ Some e → transition (searched self.old) e.configuration label.now ≡ None }
        ensures led { (i : ℕ) → result ≡ Ok (Trial.Led i) → (e : Passed) → slice_get (entries self.old) origin.from ≡ Some e
            → LeadsAt (searched self.old) (course_of scope.keeps) (entries self.new) e.next e.items e.configuration label.now i }
    {
        let mut plain = self.kept.configuration(origin.from as usize)?;
        self.follow_from(&mut plain, label, origin, scope)
    }

    /// Tries a label of the entry `origin.from`. An error means out of memory.
    fn follow(&mut self, label: &Label, origin: Origin, scope: Scope) -> Result<Trial, AllocError>
        requires exists { origin.from < length (entries self.old) }
        requires reached { AllReached (searched self.old) (course_of scope.keeps) (entries self.old) }
        ensures program { searched self.new ≡ searched self.old }
        ensures grows { IfOk result (λ t. is_tried t ≡ true → Grows (searched self.old) (course_of scope.keeps) scope.most (entries self.old) (entries self.new)) }
        ensures impossible { result ≡ Ok Trial.Tried → (e : Passed) → slice_get (entries self.old) origin.from ≡ Some e → transition (searched self.old) e.configuration label.now ≡ None }
        ensures led { (i : ℕ) → result ≡ Ok (Trial.Led i) → (e : Passed) → slice_get (entries self.old) origin.from ≡ Some e
            → LeadsAt (searched self.old) (course_of scope.keeps) (entries self.new) e.next e.items e.configuration label.now i }
    {
        match self.follow_known(label, origin, scope) {
            Ok(Some(trial)) => Ok(trial),
            Ok(None) => self.follow_whole(label, origin, scope),
            Err(_) => Err(AllocError),
        }
    }

    /// Tries one more label of the entry `origin.from`, if it is asked for. `trial` is the result of those before it,
    /// and the new result counts it too. An error means out of memory.
    fn try_label(
        &mut self,
        label: &Label,
        origin: Origin,
        served: Option<u32>,
        trial: Trial,
        scope: Scope,
    ) -> Result<Trial, AllocError>
        requires exists { origin.from < length (entries self.old) }
        requires reached { AllReached (searched self.old) (course_of scope.keeps) (entries self.old) }
        ensures program { searched self.new ≡ searched self.old }
        ensures grows { IfOk result (λ t. is_tried t ≡ true → Grows (searched self.old) (course_of scope.keeps) scope.most (entries self.old) (entries self.new)) }
        ensures tried { IfOk result (λ t. is_tried t ≡ true → is_asked served label.now ≡ true → (e : Passed) → slice_get (entries self.old) origin.from ≡ Some e
            → IsLabelTried (searched self.old) (course_of scope.keeps) (entries self.new) e.next e.items e.configuration label.now) }
        ensures led { (i : ℕ) → result ≡ Ok (Trial.Led i) → (trial ≡ Trial.Led i) ⊎ ((e : Passed) → slice_get (entries self.old) origin.from ≡ Some e
            → OneLeadsOn (searched self.old) (course_of scope.keeps) (entries self.new) origin.from e served i) }
    {
        if !is_asked(served, label) {
            return Ok(trial);
        }
        match self.follow(label, origin, scope) {
            Ok(Trial::Tried) => Ok(trial),
            Ok(Trial::Led(to)) => Ok(later(trial, origin.from, to)),
            Ok(Trial::Over) => Ok(Trial::Over),
            Err(_) => Err(AllocError),
        }
    }

    /// Tries these labels of entry `at`, or only those that the object `served` serves. Of takes of equal messages that
    /// stand side by side it tries one. `Led` if one of them leads to a later entry. An error means out of memory.
    fn try_labels(
        &mut self,
        at: u32,
        labels: &[Label],
        served: Option<u32>,
        scope: Scope,
    ) -> Result<Trial, AllocError>
        requires exists { at < length (entries self.old) }
        requires reached { AllReached (searched self.old) (course_of scope.keeps) (entries self.old) }
        ensures program { searched self.new ≡ searched self.old }
        ensures grows { IfOk result (λ t. is_tried t ≡ true → Grows (searched self.old) (course_of scope.keeps) scope.most (entries self.old) (entries self.new)) }
        ensures tried { IfOk result (λ t. is_tried t ≡ true → (e : Passed) → slice_get (entries self.old) at ≡ Some e
            → AllLeadInto (searched self.old) (course_of scope.keeps) (entries self.new) e.next e.items e.configuration (filter (is_asked served) labels.now)) }
        ensures led { (i : ℕ) → result ≡ Ok (Trial.Led i) → (e : Passed) → slice_get (entries self.old) at ≡ Some e
            → OneLeadsOn (searched self.old) (course_of scope.keeps) (entries self.new) at e served i }
    {
        let mut trial = Trial::Tried;
        for (place, label) in labels.iter().enumerate() {
            if is_again(labels, place) {
                continue;
            }
            let origin = Origin {
                from: at,
                label: number(place),
            };
            match self.try_label(label, origin, served, trial, scope) {
                Ok(made) => trial = made,
                Err(_) => return Err(AllocError),
            }
            if trial.is_over() {
                return Ok(Trial::Over);
            }
        }
        Ok(trial)
    }

    /// Whether the labels of entry `at` that the object serves are enough: there is one, and only objects that wait for
    /// the object know its name. `labels` are all to try.
    pub fn are_enough(&self, at: u32, labels: &[Label], object: u32) -> bool
        requires { at < length (entries self.now) }
        ensures { result ≡ true → IfSome (slice_get (entries self.now) at) (λ e. IsInOrder e.configuration
            → (l : OneLabel) (d : Configuration) → is_served object l ≡ true → transition (searched self.now) e.configuration l ≡ Some d
            → IsAwaited (searched self.now) e.next object e.configuration) }
    {
        serves_some(object, labels) && self.kept.is_only_awaited(at as usize, object)
    }

    /// Tries the labels of entry `at` that the object serves, if they are enough. `labels` are all to try. `Led` if
    /// they were tried, and one of them leads to a later entry. An error means out of memory.
    fn try_object(
        &mut self,
        at: u32,
        labels: &[Label],
        object: u32,
        scope: Scope,
    ) -> Result<Trial, AllocError>
        requires exists { at < length (entries self.old) }
        requires in_order { AllInOrder (entries self.old) }
        requires reached { AllReached (searched self.old) (course_of scope.keeps) (entries self.old) }
        requires labels { (e : Passed) → slice_get (entries self.old) at ≡ Some e → labels.now ≡ labels_to_try (searched self.old) e.next e.configuration }
        ensures program { searched self.new ≡ searched self.old }
        ensures grows { IfOk result (λ t. is_tried t ≡ true → Grows (searched self.old) (course_of scope.keeps) scope.most (entries self.old) (entries self.new)) }
        ensures expanded { (i : ℕ) → result ≡ Ok (Trial.Led i) → (e : Passed) → slice_get (entries self.old) at ≡ Some e
            → IsExpanded (searched self.old) (course_of scope.keeps) (entries self.new) at e.next e.items e.configuration × CanMove (searched self.old) e.configuration }
    {
        if !self.are_enough(at, labels, object) {
            return Ok(Trial::Tried);
        }
        self.try_labels(at, labels, Some(object), scope)
    }

    /// Looks for an object whose labels are enough, and tries them. It passes over the objects of which `known` has the
    /// bit. `labels` are all to try. `Led` if there is one. An error means out of memory.
    fn try_awaited(
        &mut self,
        at: u32,
        labels: &[Label],
        known: u64,
        scope: Scope,
    ) -> Result<Trial, AllocError>
        requires exists { at < length (entries self.old) }
        requires in_order { AllInOrder (entries self.old) }
        requires reached { AllReached (searched self.old) (course_of scope.keeps) (entries self.old) }
        requires labels { (e : Passed) → slice_get (entries self.old) at ≡ Some e → labels.now ≡ labels_to_try (searched self.old) e.next e.configuration }
        ensures program { searched self.new ≡ searched self.old }
        ensures grows { IfOk result (λ t. is_tried t ≡ true → Grows (searched self.old) (course_of scope.keeps) scope.most (entries self.old) (entries self.new)) }
        ensures expanded { (i : ℕ) → result ≡ Ok (Trial.Led i) → (e : Passed) → slice_get (entries self.old) at ≡ Some e
            → IsExpanded (searched self.old) (course_of scope.keeps) (entries self.new) at e.next e.items e.configuration × CanMove (searched self.old) e.configuration }
    {
        for object in 0..self.kept.next_name(at as usize) {
            if has_bit(known, object) {
                continue;
            }
            match self.try_object(at, labels, object, scope) {
                Ok(Trial::Tried) => {}
                Ok(Trial::Led(to)) => return Ok(Trial::Led(to)),
                Ok(Trial::Over) => return Ok(Trial::Over),
                Err(_) => return Err(AllocError),
            }
        }
        Ok(Trial::Tried)
    }

    /// Tries these labels of entry `at`, or those of one object where that is enough. They are all to try. `Led` if one
    /// of them leads to a later entry. An error means out of memory.
    fn try_choices(
        &mut self,
        at: u32,
        labels: &[Label],
        known: u64,
        scope: Scope,
    ) -> Result<Trial, AllocError>
        requires exists { at < length (entries self.old) }
        requires in_order { AllInOrder (entries self.old) }
        requires reached { AllReached (searched self.old) (course_of scope.keeps) (entries self.old) }
        requires labels { (e : Passed) → slice_get (entries self.old) at ≡ Some e → labels.now ≡ labels_to_try (searched self.old) e.next e.configuration }
        ensures program { searched self.new ≡ searched self.old }
        ensures grows { IfOk result (λ t. is_tried t ≡ true → Grows (searched self.old) (course_of scope.keeps) scope.most (entries self.old) (entries self.new)) }
        ensures expanded { IfOk result (λ t. is_tried t ≡ true → (e : Passed) → slice_get (entries self.old) at ≡ Some e
            → IsExpanded (searched self.old) (course_of scope.keeps) (entries self.new) at e.next e.items e.configuration) }
        ensures led { (i : ℕ) → result ≡ Ok (Trial.Led i) → (e : Passed) → slice_get (entries self.old) at ≡ Some e → CanMove (searched self.old) e.configuration }
    {
        match self.try_awaited(at, labels, known, scope) {
            Ok(Trial::Tried) => self.try_labels(at, labels, None, scope),
            Ok(Trial::Led(to)) => Ok(Trial::Led(to)),
            Ok(Trial::Over) => Ok(Trial::Over),
            Err(_) => Err(AllocError),
        }
    }

    /// Tries the first label of entry `at` that creates an object. `labels` are all to try. `Led` if there is one. An
    /// error means out of memory.
    fn try_birth(&mut self, at: u32, labels: &[Label], scope: Scope) -> Result<Trial, AllocError>
        requires exists { at < length (entries self.old) }
        requires reached { AllReached (searched self.old) (course_of scope.keeps) (entries self.old) }
        ensures program { searched self.new ≡ searched self.old }
        ensures grows { IfOk result (λ t. is_tried t ≡ true → Grows (searched self.old) (course_of scope.keeps) scope.most (entries self.old) (entries self.new)) }
        ensures expanded { (i : ℕ) → result ≡ Ok (Trial.Led i) → (e : Passed) → slice_get (entries self.old) at ≡ Some e
            → IsExpanded (searched self.old) (course_of scope.keeps) (entries self.new) at e.next e.items e.configuration × CanMove (searched self.old) e.configuration }
    {
        let Some(place) = birth_place(labels, self.kept.next_name(at as usize)) else {
            return Ok(Trial::Tried);
        };
        let Some(label) = labels.get(place) else {
            return Ok(Trial::Tried);
        };
        let origin = Origin {
            from: at,
            label: number(place),
        };
        self.follow(label, origin, scope)
    }

    /// Tries these labels of entry `at`, or a creation among them, or those of one object where that is enough. They are
    /// all to try. `Led` if one of them leads to an entry. An error means out of memory.
    fn try_enough(
        &mut self,
        at: u32,
        labels: &[Label],
        known: u64,
        scope: Scope,
    ) -> Result<Trial, AllocError>
        requires exists { at < length (entries self.old) }
        requires in_order { AllInOrder (entries self.old) }
        requires reached { AllReached (searched self.old) (course_of scope.keeps) (entries self.old) }
        requires labels { (e : Passed) → slice_get (entries self.old) at ≡ Some e → labels.now ≡ labels_to_try (searched self.old) e.next e.configuration }
        ensures program { searched self.new ≡ searched self.old }
        ensures grows { IfOk result (λ t. is_tried t ≡ true → Grows (searched self.old) (course_of scope.keeps) scope.most (entries self.old) (entries self.new)) }
        ensures expanded { IfOk result (λ t. is_tried t ≡ true → (e : Passed) → slice_get (entries self.old) at ≡ Some e
            → IsExpanded (searched self.old) (course_of scope.keeps) (entries self.new) at e.next e.items e.configuration) }
        ensures led { (i : ℕ) → result ≡ Ok (Trial.Led i) → (e : Passed) → slice_get (entries self.old) at ≡ Some e → CanMove (searched self.old) e.configuration }
    {
        match self.try_birth(at, labels, scope) {
            Ok(Trial::Tried) => self.try_choices(at, labels, known, scope),
            Ok(Trial::Led(to)) => Ok(Trial::Led(to)),
            Ok(Trial::Over) => Ok(Trial::Over),
            Err(_) => Err(AllocError),
        }
    }

    /// Tries the labels of entry `at`: all, or a creation alone, or those of one object where that is enough. `Led` if
    /// one of them leads to an entry. An error means out of memory.
    pub fn expand(
        &mut self,
        alloc: Global,
        hints: &mut Hints,
        at: u32,
        scope: Scope,
    ) -> Result<Trial, AllocError>
        requires exists { at < length (entries self.old) }
        requires in_order { AllInOrder (entries self.old) }
        requires reached { AllReached (searched self.old) (course_of scope.keeps) (entries self.old) }
        ensures program { searched self.new ≡ searched self.old }
        ensures grows { IfOk result (λ t. is_tried t ≡ true → Grows (searched self.old) (course_of scope.keeps) scope.most (entries self.old) (entries self.new)) }
        ensures expanded { IfOk result (λ t. is_tried t ≡ true → (e : Passed) → slice_get (entries self.old) at ≡ Some e
            → IsExpanded (searched self.old) (course_of scope.keeps) (entries self.new) at e.next e.items e.configuration) }
        ensures led { (i : ℕ) → result ≡ Ok (Trial.Led i) → (e : Passed) → slice_get (entries self.old) at ≡ Some e → CanMove (searched self.old) e.configuration }
    {
        let mut labels = Vec::new(alloc);
        self.kept.labels(at as usize, &mut labels)?;
        let known = self.kept.known(at as usize, hints)?;
        self.try_enough(at, &labels, known, scope)
    }

    /// Whether the query looks for the configuration of entry `at`. An error means out of memory.
    fn is_shown(&self, at: u32, question: &Query) -> Result<bool, AllocError>
        requires { at < length (entries self.now) }
        ensures { result ≡ Ok false → IfSome (slice_get (entries self.now) at) (λ e. IsPassedOver (searched self.now) question.now e) }
    {
        let plain = self.kept.configuration(at as usize)?;
        match judge(&plain, question) {
            Classification::Neither => Ok(false),
            Classification::Stuck | Classification::Fault => Ok(true),
        }
    }

    /// Visits an entry: tries its labels, unless the query looks for it. An error means out of memory. An entry that no
    /// object has met an error in, and that a label leads on from, is none that a query looks for.
    fn visit(
        &mut self,
        alloc: Global,
        hints: &mut Hints,
        at: u32,
        question: &Query,
    ) -> Result<Visit, AllocError>
        requires exists { at < length (entries self.old) }
        requires in_order { AllInOrder (entries self.old) }
        requires reached { AllReached (searched self.old) states_only (entries self.old) }
        ensures program { searched self.new ≡ searched self.old }
        ensures done { result ≡ Ok Visit.Done
            → HasSearched (searched self.old) states_only question.now.most (IsPassedOver (searched self.old) question.now) (entries self.old) (entries self.new) at }
    {
        if self.kept.has_error(at as usize) && self.is_shown(at, question)? {
            return Ok(Visit::Shown);
        }
        let scope = Scope {
            keeps: Keeps::States,
            most: question.most,
        };
        match self.expand(alloc, hints, at, scope) {
            Ok(Trial::Led(_)) => Ok(Visit::Done),
            Ok(Trial::Over) => Ok(Visit::Over),
            Ok(Trial::Tried) => {
                if self.is_shown(at, question)? {
                    return Ok(Visit::Shown);
                }
                Ok(Visit::Done)
            }
            Err(_) => Err(AllocError),
        }
    }

    /// Visits the entries in order, and then those that were added meanwhile. This is breadth-first.
    /// Requires at most `most` entries, the start among them. An error means out of memory.
    pub fn look<P: Progress>(
        &mut self,
        alloc: Global,
        question: &Query,
        progress: &mut P,
    ) -> Result<RunEnd, AllocError>
        requires begun { IsSearchedTo (searched self.old) states_only (IsPassedOver (searched self.old) question.now) (entries self.old) 0 }
        requires within { length (entries self.old) ≤ question.now.most }
        ensures program { searched self.new ≡ searched self.old }
        ensures whole { result ≡ Ok RunEnd.Whole → IsSearchedTo (searched self.old) states_only (IsPassedOver (searched self.old) question.now) (entries self.new) (length (entries self.new)) }
        ensures within { result ≡ Ok RunEnd.Whole → length (entries self.new) ≤ question.now.most }
    {
        let mut hints = Hints::make(alloc);
        let mut at = 0;
        while (at as usize) < self.kept.len() {
            progress.note(self.count(question.most), at);
            match self.visit(alloc, &mut hints, at, question) {
                Ok(Visit::Done) => at += 1,
                Ok(Visit::Shown) => return Ok(RunEnd::Shown(at)),
                Ok(Visit::Over) => return Ok(RunEnd::Over),
                Err(_) => return Err(AllocError),
            }
        }
        Ok(RunEnd::Whole)
    }
}
