//! Transitions in rows of numbers.
ghost use Rattle.std.specs.Prelude.{◌≡◌, ◌<◌, ◌∷◌, ℕ, List, [], Bool, Ok, OnOk, None, Some, IfOk, IfSome, length, take, true, false};
ghost use Rattle.pool_syntax.specs.TreeOf.{program_of};
ghost use Rattle.pool_relation.specs.Configuration.{Configuration};
ghost use Rattle.pool_relation.specs.Transition.{transition};
ghost use Rattle.search_laws.specs.Tried.{Follows};
ghost use Rattle.search_states.specs.States.{states};
ghost use Rattle.object_moves.specs.Followed.{AreChanged, HasMoved, course, passes};
ghost use Rattle.object_moves.specs.Known.{birth_label, duo_label, parcel_label, solo_label};
ghost use Rattle.run_types.specs.Message.{Message};
ghost use Rattle.pool_semantics.specs.Mails.{posts};
ghost use Rattle.object_moves.specs.Rows.{AreWithin, row};

use crate::changes::MOST;
use crate::known::{Birth, Duo, Lead, Next, One, Pair, Parcel, Solo, Two};
use crate::mails::{change_messages, waits};
use crate::table::MoveTable;
use message_queue::MessageQueue;
use run_types::{Label, NameId};
use std::alloc::AllocError;
use std::collections::BTreeMap;

/// Whether the transition of one object is followed: a write unless `silent`, an error always, a pick never.
fn is_followed(silent: bool, act: Solo) -> bool
    ensures { (o : ℕ) → result ≡ (course silent).follows (solo_label o act) }
{
    match act {
        Solo::Write(_) => !silent,
        Solo::Pick(_) => false,
        Solo::Fault(_) => true,
    }
}

/// Adds the objects that a transition with this label changes. An error means out of memory.
pub fn push_movers(moved: &mut Vec<u32>, label: &Label) -> Result<(), AllocError>
    ensures { OnOk result (HasMoved (label.now ∷ []) moved.old.items moved.new.items) }
{
    match *label {
        Label::Local { object }
        | Label::New { object, .. }
        | Label::Send { object, .. }
        | Label::Write { object, .. }
        | Label::Pick { object, .. }
        | Label::Fault { object, .. } => {
            moved.push(object)?;
            Ok(())
        }
        Label::Answer {
            receiver,
            caller,
            ..
        }
        | Label::Return {
            receiver,
            caller,
            ..
        } => {
            moved.push(receiver)?;
            moved.push(caller)?;
            Ok(())
        }
        Label::Take { receiver, .. } => {
            moved.push(receiver)?;
            Ok(())
        }
    }
}

impl<'a> MoveTable<'a> {
    /// Makes the transition of one object in this row. `Unknown` if the row has no such object, or if the table of
    /// states is full. An error means out of memory.
    fn make_one(
        &mut self,
        numbers: &mut Vec<u32>,
        object: u32,
        act: Solo,
    ) -> Result<Lead, AllocError>
        requires within { AreWithin (states self.old.table) numbers.old.items }
        ensures grows { take (length (states self.old.table)) (states self.new.table) ≡ states self.old.table }
        ensures program { self.new.program ≡ self.old.program }
        ensures within { IfOk result (λ _. AreWithin (states self.new.table) numbers.new.items) }
        ensures impossible { (ms : List ((ℕ × ℕ) × List Message)) → result ≡ Ok Lead.Impossible → transition (program_of self.old.program.now) (row (states self.old.table) numbers.old.items ms) (solo_label object act) ≡ None }
        ensures made { (ms : List ((ℕ × ℕ) × List Message)) → result ≡ Ok Lead.Made → transition (program_of self.old.program.now) (row (states self.old.table) numbers.old.items ms) (solo_label object act) ≡ Some (row (states self.new.table) numbers.new.items ms) }
    {
        let Some(state) = numbers.as_slice().get(object as usize) else {
            return Ok(Lead::Unknown);
        };
        match self.one(object, *state, act) {
            Ok(None) => Ok(Lead::Unknown),
            Ok(Some(One::Impossible)) => Ok(Lead::Impossible),
            Ok(Some(One::To(to))) => {
                numbers[object as usize] = to;
                Ok(Lead::Made)
            }
            Err(_) => Err(AllocError),
        }
    }

    /// Makes the answer or the return in this row. `Unknown` if the row has no such objects, if they are one object, if
    /// a message from the caller to the receiver waits, or if the table of states is full. An error means out of
    /// memory.
    fn make_two(
        &mut self,
        numbers: &mut Vec<u32>,
        messages: &BTreeMap<(u32, u32), MessageQueue>,
        receiver: u32,
        caller: u32,
        act: &Duo,
    ) -> Result<Lead, AllocError>
        requires within { AreWithin (states self.old.table) numbers.old.items }
        ensures grows { take (length (states self.old.table)) (states self.new.table) ≡ states self.old.table }
        ensures program { self.new.program ≡ self.old.program }
        ensures within { IfOk result (λ _. AreWithin (states self.new.table) numbers.new.items) }
        ensures impossible { result ≡ Ok Lead.Impossible → transition (program_of self.old.program.now) (row (states self.old.table) numbers.old.items (posts messages.now.entries)) (duo_label receiver caller act.now) ≡ None }
        ensures made { result ≡ Ok Lead.Made → transition (program_of self.old.program.now) (row (states self.old.table) numbers.old.items (posts messages.now.entries)) (duo_label receiver caller act.now) ≡ Some (row (states self.new.table) numbers.new.items (posts messages.now.entries)) }
    {
        if receiver == caller {
            return Ok(Lead::Unknown);
        }
        if waits(messages, caller, receiver) {
            return Ok(Lead::Unknown);
        }
        let Some(serving) = numbers.as_slice().get(receiver as usize) else {
            return Ok(Lead::Unknown);
        };
        let Some(asking) = numbers.as_slice().get(caller as usize) else {
            return Ok(Lead::Unknown);
        };
        let pair = Pair {
            receiver,
            serving: *serving,
            caller,
            asking: *asking,
        };
        match self.two(pair, act) {
            Ok(None) => Ok(Lead::Unknown),
            Ok(Some(Two::Impossible)) => Ok(Lead::Impossible),
            Ok(Some(Two::To(served, asked))) => {
                numbers[receiver as usize] = served;
                numbers[caller as usize] = asked;
                Ok(Lead::Made)
            }
            Err(_) => Err(AllocError),
        }
    }

    /// Makes the transition in which the object sends or takes this message in this row. `Impossible` also if it takes
    /// one that is not the first one of its sender for its method. `Unknown` if it takes the first one for its method,
    /// and others are before it, if the row has no such objects, or if the table of states is full; the messages are
    /// then unspecified. An error means out of memory.
    fn make_mail(
        &mut self,
        numbers: &mut Vec<u32>,
        messages: &mut BTreeMap<(u32, u32), MessageQueue>,
        object: u32,
        act: &Parcel,
    ) -> Result<Lead, AllocError>
        requires within { AreWithin (states self.old.table) numbers.old.items }
        ensures grows { take (length (states self.old.table)) (states self.new.table) ≡ states self.old.table }
        ensures program { self.new.program ≡ self.old.program }
        ensures within { IfOk result (λ _. AreWithin (states self.new.table) numbers.new.items) }
        ensures impossible { result ≡ Ok Lead.Impossible → transition (program_of self.old.program.now) (row (states self.old.table) numbers.old.items (posts messages.old.entries)) (parcel_label object act.now) ≡ None }
        ensures made { result ≡ Ok Lead.Made → transition (program_of self.old.program.now) (row (states self.old.table) numbers.old.items (posts messages.old.entries)) (parcel_label object act.now) ≡ Some (row (states self.new.table) numbers.new.items (posts messages.new.entries)) }
    {
        let Some(state) = numbers.as_slice().get(object as usize) else {
            return Ok(Lead::Unknown);
        };
        match self.mail(object, *state, act) {
            Ok(None) => Ok(Lead::Unknown),
            Ok(Some(One::Impossible)) => Ok(Lead::Impossible),
            Ok(Some(One::To(to))) => {
                match change_messages(self.alloc(), messages, numbers.len(), object, act) {
                    Ok(Lead::Made) => {
                        numbers[object as usize] = to;
                        Ok(Lead::Made)
                    }
                    Ok(Lead::Unknown) => Ok(Lead::Unknown),
                    Ok(Lead::Impossible) => Ok(Lead::Impossible),
                    Err(_) => Err(AllocError),
                }
            }
            Err(_) => Err(AllocError),
        }
    }

    /// Makes the transition in which the object makes another one, under the next name of this row. `Unknown` if this
    /// is not the next name, if the row has no such object, or if the table of states is full. An error means out of
    /// memory.
    fn make_new(
        &mut self,
        numbers: &mut Vec<u32>,
        object: u32,
        name: u32,
        class: NameId,
    ) -> Result<Lead, AllocError>
        requires within { AreWithin (states self.old.table) numbers.old.items }
        ensures grows { take (length (states self.old.table)) (states self.new.table) ≡ states self.old.table }
        ensures program { self.new.program ≡ self.old.program }
        ensures within { IfOk result (λ _. AreWithin (states self.new.table) numbers.new.items) }
        ensures impossible { (ms : List ((ℕ × ℕ) × List Message)) → result ≡ Ok Lead.Impossible → transition (program_of self.old.program.now) (row (states self.old.table) numbers.old.items ms) (Label.New object name class) ≡ None }
        ensures made { (ms : List ((ℕ × ℕ) × List Message)) → result ≡ Ok Lead.Made → transition (program_of self.old.program.now) (row (states self.old.table) numbers.old.items ms) (Label.New object name class) ≡ Some (row (states self.new.table) numbers.new.items ms) }
    {
        if name as usize != numbers.len() {
            return Ok(Lead::Unknown);
        }
        let Some(state) = numbers.as_slice().get(object as usize) else {
            return Ok(Lead::Unknown);
        };
        let birth = Birth {
            object,
            state: *state,
            name,
            class,
        };
        match self.new(birth) {
            Ok(None) => Ok(Lead::Unknown),
            Ok(Some(Two::Impossible)) => Ok(Lead::Impossible),
            Ok(Some(Two::To(maker, new))) => {
                numbers[object as usize] = maker;
                numbers.push(new)?;
                Ok(Lead::Made)
            }
            Err(_) => Err(AllocError),
        }
    }

    /// Makes the transition with this label in this row. `Unknown` if it is local; if it makes an object not under the
    /// next name; if it takes the first message of its sender for a method, and others are before it; if it is an
    /// answer or a return where a message from the caller waits; if the row has no such objects, or if the table of
    /// states is full. An error means out of memory.
    fn make_in(
        &mut self,
        numbers: &mut Vec<u32>,
        messages: &mut BTreeMap<(u32, u32), MessageQueue>,
        label: &Label,
    ) -> Result<Lead, AllocError>
        requires within { AreWithin (states self.old.table) numbers.old.items }
        ensures grows { take (length (states self.old.table)) (states self.new.table) ≡ states self.old.table }
        ensures program { self.new.program ≡ self.old.program }
        ensures within { IfOk result (λ _. AreWithin (states self.new.table) numbers.new.items) }
        ensures impossible { result ≡ Ok Lead.Impossible → transition (program_of self.old.program.now) (row (states self.old.table) numbers.old.items (posts messages.old.entries)) label.now ≡ None }
        ensures made { result ≡ Ok Lead.Made → transition (program_of self.old.program.now) (row (states self.old.table) numbers.old.items (posts messages.old.entries)) label.now ≡ Some (row (states self.new.table) numbers.new.items (posts messages.new.entries)) }
    {
        match *label {
            Label::Write { object, item } => self.make_one(numbers, object, Solo::Write(item)),
            Label::Pick { object, alt } => self.make_one(numbers, object, Solo::Pick(alt)),
            Label::Fault { object, error } => self.make_one(numbers, object, Solo::Fault(error)),
            Label::Answer {
                receiver,
                caller,
                method,
                args,
            } => self.make_two(
                numbers,
                messages,
                receiver,
                caller,
                &Duo::answer(method, args),
            ),
            Label::Return {
                receiver,
                caller,
                value,
            } => self.make_two(numbers, messages, receiver, caller, &Duo::give(value)),
            Label::Send {
                object,
                receiver,
                method,
                args,
            } => self.make_mail(
                numbers,
                messages,
                object,
                &Parcel::to_receiver(receiver, method, args),
            ),
            Label::Take {
                receiver,
                sender,
                method,
                args,
            } => self.make_mail(
                numbers,
                messages,
                receiver,
                &Parcel::from_sender(sender, method, args),
            ),
            Label::New {
                object,
                name,
                class,
            } => self.make_new(numbers, object, name, class),
            Label::Local { .. } => Ok(Lead::Unknown),
        }
    }

    /// Makes the local transitions of the object in this row, and tells what it makes next. None if the row has no such
    /// object, if its local transitions are 1,000,000 or more, or if the table of states is full. An error means out
    /// of memory.
    fn rest_in(&mut self, numbers: &mut Vec<u32>, object: u32) -> Result<Option<Next>, AllocError>
        requires within { AreWithin (states self.old.table) numbers.old.items }
        ensures grows { take (length (states self.old.table)) (states self.new.table) ≡ states self.old.table }
        ensures program { self.new.program ≡ self.old.program }
        ensures within { IfOk result (λ _. AreWithin (states self.new.table) numbers.new.items) }
        ensures follows { IfOk result (λ o. IfSome o (λ _. (s : Bool) (ms : List ((ℕ × ℕ) × List Message)) → Follows (program_of self.old.program.now) (course s) (row (states self.old.table) numbers.old.items ms) (row (states self.new.table) numbers.new.items ms))) }
    {
        let Some(state) = numbers.as_slice().get(object as usize) else {
            return Ok(None);
        };
        match self.rest(object, *state) {
            Ok(None) => Ok(None),
            Ok(Some(known)) => {
                numbers[object as usize] = known.to;
                Ok(Some(known.next))
            }
            Err(_) => Err(AllocError),
        }
    }

    /// Sends the message with this number, and adds the object to `moved`. `false` if it cannot tell. An error means
    /// out of memory.
    fn settle_send(
        &mut self,
        numbers: &mut Vec<u32>,
        messages: &mut BTreeMap<(u32, u32), MessageQueue>,
        moved: &mut Vec<u32>,
        object: u32,
        at: u32,
    ) -> Result<bool, AllocError>
        requires within { AreWithin (states self.old.table) numbers.old.items }
        ensures grows { take (length (states self.old.table)) (states self.new.table) ≡ states self.old.table }
        ensures program { self.new.program ≡ self.old.program }
        ensures within { IfOk result (λ _. AreWithin (states self.new.table) numbers.new.items) }
        ensures follows { result ≡ Ok true → (s : Bool) → (f : Follows (program_of self.old.program.now) (course s) (row (states self.old.table) numbers.old.items (posts messages.old.entries)) (row (states self.new.table) numbers.new.items (posts messages.new.entries))) × HasMoved (passes f) moved.old.items moved.new.items }
    {
        let Some(act) = self.sent_next(at) else {
            return Ok(false);
        };
        if act.takes {
            return Ok(false);
        }
        match self.make_mail(numbers, messages, object, &act) {
            Ok(Lead::Unknown) => Ok(false),
            Ok(Lead::Impossible) => Ok(false),
            Ok(Lead::Made) => {
                moved.push(object)?;
                Ok(true)
            }
            Err(_) => Err(AllocError),
        }
    }

    /// Follows the transitions of one object in this row. The objects that take part in one that is not local are added
    /// to `moved`. `false` if it cannot tell. An error means out of memory.
    fn settle_object(
        &mut self,
        numbers: &mut Vec<u32>,
        messages: &mut BTreeMap<(u32, u32), MessageQueue>,
        moved: &mut Vec<u32>,
        object: u32,
        silent: bool,
    ) -> Result<bool, AllocError>
        requires within { AreWithin (states self.old.table) numbers.old.items }
        ensures grows { take (length (states self.old.table)) (states self.new.table) ≡ states self.old.table }
        ensures program { self.new.program ≡ self.old.program }
        ensures within { IfOk result (λ _. AreWithin (states self.new.table) numbers.new.items) }
        ensures follows { result ≡ Ok true → (f : Follows (program_of self.old.program.now) (course silent) (row (states self.old.table) numbers.old.items (posts messages.old.entries)) (row (states self.new.table) numbers.new.items (posts messages.new.entries))) × HasMoved (passes f) moved.old.items moved.new.items }
    {
        let Some(next) = self.rest_in(numbers, object)? else {
            return Ok(false);
        };
        match next {
            Next::Nothing => Ok(true),
            Next::Sends(at) => self.settle_send(numbers, messages, moved, object, at),
            Next::Makes(act) => {
                if !is_followed(silent, act) {
                    return Ok(true);
                }
                match self.make_one(numbers, object, act) {
                    Ok(Lead::Unknown) => Ok(false),
                    Ok(Lead::Impossible) => Ok(false),
                    Ok(Lead::Made) => {
                        moved.push(object)?;
                        Ok(true)
                    }
                    Err(_) => Err(AllocError),
                }
            }
            Next::Returns { caller, value } => {
                match self.make_two(numbers, messages, object, caller, &Duo::give(value)) {
                    Ok(Lead::Unknown) => Ok(false),
                    Ok(Lead::Impossible) => Ok(false),
                    Ok(Lead::Made) => {
                        moved.push(object)?;
                        moved.push(caller)?;
                        Ok(true)
                    }
                    Err(_) => Err(AllocError),
                }
            }
        }
    }

    /// Follows the transitions of these objects in this row, and of those that then take part. `false` if it cannot
    /// tell. An error means out of memory.
    fn settle_row(
        &mut self,
        numbers: &mut Vec<u32>,
        messages: &mut BTreeMap<(u32, u32), MessageQueue>,
        moved: &mut Vec<u32>,
        silent: bool,
    ) -> Result<bool, AllocError>
        requires within { AreWithin (states self.old.table) numbers.old.items }
        ensures grows { take (length (states self.old.table)) (states self.new.table) ≡ states self.old.table }
        ensures program { self.new.program ≡ self.old.program }
        ensures within { IfOk result (λ _. AreWithin (states self.new.table) numbers.new.items) }
        ensures follows { result ≡ Ok true → (f : Follows (program_of self.old.program.now) (course silent) (row (states self.old.table) numbers.old.items (posts messages.old.entries)) (row (states self.new.table) numbers.new.items (posts messages.new.entries))) × HasMoved (passes f) moved.old.items moved.new.items }
    {
        for at in 0..MOST {
            let Some(object) = moved.as_slice().get(at as usize).copied() else {
                return Ok(true);
            };
            match self.settle_object(numbers, messages, moved, object, silent) {
                Ok(true) => {}
                Ok(false) => return Ok(false),
                Err(_) => return Err(AllocError),
            }
        }
        Ok(false)
    }

    /// Follows the transitions of the object that this label makes, if it makes one. `false` if it cannot tell. An
    /// error means out of memory.
    fn settle_new(
        &mut self,
        numbers: &mut Vec<u32>,
        messages: &mut BTreeMap<(u32, u32), MessageQueue>,
        moved: &mut Vec<u32>,
        label: &Label,
        silent: bool,
    ) -> Result<bool, AllocError>
        requires within { AreWithin (states self.old.table) numbers.old.items }
        ensures grows { take (length (states self.old.table)) (states self.new.table) ≡ states self.old.table }
        ensures program { self.new.program ≡ self.old.program }
        ensures within { IfOk result (λ _. AreWithin (states self.new.table) numbers.new.items) }
        ensures follows { result ≡ Ok true → (f : Follows (program_of self.old.program.now) (course silent) (row (states self.old.table) numbers.old.items (posts messages.old.entries)) (row (states self.new.table) numbers.new.items (posts messages.new.entries))) × HasMoved (passes f) moved.old.items moved.new.items }
    {
        match *label {
            Label::New { name, .. } => {
                self.settle_object(numbers, messages, moved, name, silent)
            }
            _ => Ok(true),
        }
    }

    /// Makes the transition with this label in this row, and follows those that need no choice, without writes if
    /// `silent`. `moved` becomes a list of objects that these transitions change. `Unknown` if it cannot tell. Then the
    /// row and the messages are unspecified. It cannot tell in these cases: the label is local; it makes an object not
    /// under the next name; it takes the first message of its sender for a method, and others are before it; an answer
    /// or a return has a caller whose message waits; 1,000,000 transitions or more follow; or the table of
    /// states is full. An error means out of memory.
    pub fn lead(
        &mut self,
        numbers: &mut Vec<u32>,
        messages: &mut BTreeMap<(u32, u32), MessageQueue>,
        moved: &mut Vec<u32>,
        label: &Label,
        silent: bool,
    ) -> Result<Lead, AllocError>
        requires within { AreWithin (states self.old.table) numbers.old.items }
        ensures grows { take (length (states self.old.table)) (states self.new.table) ≡ states self.old.table }
        ensures program { self.new.program ≡ self.old.program }
        ensures within { IfOk result (λ _. AreWithin (states self.new.table) numbers.new.items) }
        ensures impossible { result ≡ Ok Lead.Impossible → transition (program_of self.old.program.now) (row (states self.old.table) numbers.old.items (posts messages.old.entries)) label.now ≡ None }
        ensures made { result ≡ Ok Lead.Made → (d : Configuration) × (transition (program_of self.old.program.now) (row (states self.old.table) numbers.old.items (posts messages.old.entries)) label.now ≡ Some d) × (f : Follows (program_of self.old.program.now) (course silent) d (row (states self.new.table) numbers.new.items (posts messages.new.entries))) × AreChanged (label.now ∷ passes f) moved.new.items }
    {
        match self.make_in(numbers, messages, label) {
            Ok(Lead::Made) => {}
            Ok(Lead::Unknown) => return Ok(Lead::Unknown),
            Ok(Lead::Impossible) => return Ok(Lead::Impossible),
            Err(_) => return Err(AllocError),
        }
        moved.clear();
        push_movers(moved, label)?;
        match self.settle_new(numbers, messages, moved, label, silent) {
            Ok(true) => {}
            Ok(false) => return Ok(Lead::Unknown),
            Err(_) => return Err(AllocError),
        }
        match self.settle_row(numbers, messages, moved, silent) {
            Ok(true) => Ok(Lead::Made),
            Ok(false) => Ok(Lead::Unknown),
            Err(_) => Err(AllocError),
        }
    }
}
