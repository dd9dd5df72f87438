//! The messages of one sender to one receiver that wait, found by their method.
//!
//! Does not know: when a message is sent or taken.
#![tactic(auto)]

ghost use Rattle.std.specs.Prelude.{◌≡◌, ◌==◌, ◌↔◌, [], ◌∷◌, ◌++◌, IfOk, OnOk, OnErr, IsTrue, map, option_map, slice_get, is_some};
ghost use Rattle.std.specs.BTreeMap.{values};
ghost use Rattle.std.specs.List.{position};
ghost use Rattle.pool_relation.specs.Transition.{names_method, has_message, first_message};
ghost use Rattle.message_queue.specs.declared.Mail.{Mail as OneMail};
ghost use Rattle.message_queue.specs.Mails.{message_of, first_of, without_of};

mod behind;
mod index;

// A crate can name a queue in a contract only if the types of its fields are exported.
#[doc(hidden)]
pub use behind::Behind;
use pool_syntax::Named;
use run_types::{Args, NameId};
use std::alloc::{AllocError, Global};
use std::collections::{BTreeMap, VecDeque};
use std::marker::Model;
use stepper_objects::offers::names_method;

/// An asynchronous message that was not taken.
#[derive(Clone, Copy)]
pub struct Mail {
    pub method: NameId,
    pub args: Args,
}

/// The messages of one sender to one receiver that were not taken, the oldest first. The first ones are in `early`, and
/// the later ones behind. No queue of at most 8 messages allocates more than `early`.
#[derive(Drop)]
pub struct MessageQueue {
    early: VecDeque<Mail>,
    behind: Behind,
}

/// The largest number of early messages.
const EARLY: usize = 8;

impl Model for MessageQueue {
    ghost use Rattle.std.specs.Prelude.{List, ◌++◌};
    ghost use Rattle.message_queue.specs.declared.Mail.{Mail};

    ghost Value = { List Mail };

    ghost view = { λ q. q.early.items ++ q.behind };
}

/// The index of the first message for one of these methods. None if there is none.
fn place_named(queue: &VecDeque<Mail>, names: &[Named]) -> Option<usize>
    ensures { result ≡ position (λ (m : OneMail). names_method names.now m.method.0) queue.now.items }
{
    queue
        .iter()
        .position(|mail| names_method(names, mail.method.0))
}

/// The index of the first message for this method. None if there is none.
fn place_of(queue: &VecDeque<Mail>, method: NameId) -> Option<usize>
    ensures { result ≡ position (λ (m : OneMail). m.method.0 == method.0) queue.now.items }
{
    queue.iter().position(|mail| mail.method.0 == method.0)
}

impl MessageQueue {
    /// Makes an empty queue. Uses no memory.
    pub fn new(alloc: Global) -> MessageQueue
        ensures { result ≡ [] }
    {
        MessageQueue {
            early: VecDeque::new(alloc),
            behind: Behind::new(alloc),
        }
    }

    /// Makes a queue of these messages, the oldest first. They are all early, so it takes memory for a list alone, and
    /// each is found by a walk. Reports `AllocError` if memory runs out.
    pub fn of(alloc: Global, mails: &[Mail]) -> Result<MessageQueue, AllocError>
        ensures { IfOk result (λ q. q ≡ mails.now) }
    {
        let mut early = VecDeque::new(alloc);
        for mail in mails {
            early.push_back(*mail)?;
        }
        Ok(MessageQueue {
            early,
            behind: Behind::new(alloc),
        })
    }

    /// Puts a message last. Reports `AllocError`, and changes nothing, if memory runs out or if 2^64 - 1 messages came
    /// behind early ones.
    pub fn push(&mut self, mail: Mail) -> Result<(), AllocError>
        ensures ok { OnOk result (self.new ≡ self.old ++ mail ∷ []) }
        ensures err { OnErr result (self.new ≡ self.old) }
    {
        if self.early.len() < EARLY {
            if self.behind.is_empty() {
                self.early.push_back(mail)?;
                return Ok(());
            }
        }
        self.behind.push(mail)
    }

    /// Reports whether there is no message.
    pub fn is_empty(&self) -> bool
        ensures { IsTrue result ↔ (self.now ≡ []) }
    {
        if self.early.is_empty() {
            self.behind.is_empty()
        } else {
            false
        }
    }

    /// The first message. None if there is none.
    pub fn front(&self) -> Option<&Mail>
        ensures { option_map (λ m. m.now) result ≡ slice_get self.now 0 }
    {
        match self.early.front() {
            Some(mail) => Some(mail),
            None => self.behind.front(),
        }
    }

    /// The first message for one of these methods. None if there is none.
    pub fn first_named(&self, names: &[Named]) -> Option<&Mail>
        ensures first { option_map (λ m. message_of m.now) result ≡ first_message names.now (map message_of self.now) }
        ensures has { is_some result ≡ has_message names.now (map message_of self.now) }
    {
        match place_named(&self.early, names) {
            Some(at) => self.early.get(at),
            None => self.behind.first_named(names),
        }
    }

    /// The first message for this method. None if there is none.
    pub fn first_of(&self, method: NameId) -> Option<&Mail>
        ensures { option_map (λ m. message_of m.now) result ≡ first_of method.0 (map message_of self.now) }
    {
        match place_of(&self.early, method) {
            Some(at) => self.early.get(at),
            None => self.behind.first_of(method),
        }
    }

    /// Removes and returns the first message for this method. The others keep their order. None if there is none.
    pub fn take_of(&mut self, method: NameId) -> Option<Mail>
        ensures taken { option_map message_of result ≡ first_of method.0 (map message_of self.old) }
        ensures rest { map message_of self.new ≡ without_of method.0 (map message_of self.old) }
    {
        match place_of(&self.early, method) {
            Some(at) => self.early.remove(at),
            None => self.behind.take_of(method),
        }
    }

    /// All messages in order: those of the deque, then the values of the map.
    pub fn parts(&self) -> (&VecDeque<Mail>, &BTreeMap<u64, Mail>)
        ensures { self.now ≡ result.0.now.items ++ values result.1.now }
    {
        (&self.early, self.behind.mails())
    }

    /// Appends all messages in order. Reports `AllocError` if memory runs out.
    pub fn push_to(&self, into: &mut Vec<Mail>) -> Result<(), AllocError>
        ensures { OnOk result (into.new.items ≡ into.old.items ++ self.now) }
    {
        let (front, back) = self.early.as_slices();
        into.extend_from_slice(front)?;
        into.extend_from_slice(back)?;
        for mail in self.behind.mails().values() {
            into.push(*mail)?;
        }
        Ok(())
    }
}
