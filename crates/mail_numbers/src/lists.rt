//! Different lists of messages, by number.
ghost use Rattle.std.specs.Prelude.{◌≡◌, ◌<◌, ◌≤◌, ◌^◌, List, [], ◌++◌, Ok, None, Some, IfOk, IfSome, OnOk, get_or, length, map, slice_get, take, true};
ghost use Rattle.std.specs.List.{All};
ghost use Rattle.message_queue.specs.Mails.{message_of};
ghost use Rattle.mail_numbers.specs.Messages.{IsBelow, messages_at, messages_of};

use crate::mails::Mails;
use flat_lists::FlatLists;
use message_queue::Mail;
use std::alloc::{AllocError, Global};
use std::collections::HashMap;
use std::hash::{FoldHasher, Hasher};
use std::marker::Model;

/// Lists of messages, numbered from 0. Contracts see them as a list of lists. `lists` has the numbers of their
/// messages. `latest` has the last list of each hash, and no proof depends on it. At most 2^32 lists fit, with fewer
/// than 2^32 numbers in all. A list can have two numbers after a collision of hashes.
#[derive(Drop)]
pub struct MailLists {
    alloc: Global,
    mails: Mails,
    lists: FlatLists<u32>,
    latest: HashMap<u64, u32>,
}

impl Model for MailLists {
    ghost use Rattle.std.specs.Prelude.{List, length, map};
    ghost use Rattle.std.specs.List.{All};
    ghost use Rattle.run_types.specs.Message.{Message};
    ghost use Rattle.mail_numbers.specs.Messages.{IsBelow, messages_at, messages_of};

    ghost Value = { List (List Message) };

    ghost view = { λ t. map (messages_at (messages_of t.mails)) t.lists };

    ghost invariant = { λ t. All (IsBelow (length (messages_of t.mails))) t.lists };
}

fn same_numbers(left: &[u32], right: &[u32]) -> bool
    ensures { result ≡ true → left.now ≡ right.now }
{
    left == right
}

/// The hash of a list of numbers, for look-ups. Equal ones have equal hashes. No proof depends on it.
fn mark_numbers(numbers: &[u32]) -> u64 {
    let mut mark = FoldHasher::default();
    for number in numbers {
        mark.write_u32(*number);
    }
    mark.finish()
}

/// The numbers of these messages; new messages are added to the table. An error means out of memory, or that there are
/// 2^32 messages.
fn numbers_of(alloc: Global, table: &mut Mails, mails: &[Mail]) -> Result<Vec<u32>, AllocError>
    ensures grows { take (length (messages_of table.old)) (messages_of table.new) ≡ messages_of table.old }
    ensures below { IfOk result (λ v. IsBelow (length (messages_of table.new)) v.items) }
    ensures messages { IfOk result (λ v. messages_at (messages_of table.new) v.items ≡ map message_of mails.now) }
{
    let mut numbers = Vec::with_capacity(alloc, mails.len())?;
    for mail in mails {
        let number = table.number_of(mail)?;
        numbers.push(number)?;
    }
    Ok(numbers)
}

/// Adds the messages with these numbers. Requires that the table has each number. An error means out of memory.
fn push_messages(table: &Mails, numbers: &[u32], into: &mut Vec<Mail>) -> Result<(), AllocError>
    requires { IsBelow (length (messages_of table.now)) numbers.now }
    ensures { OnOk result (map message_of into.new.items ≡ map message_of into.old.items ++ messages_at (messages_of table.now) numbers.now) }
{
    for number in numbers {
        into.push(*table.get(*number))?;
    }
    Ok(())
}

/// The number of this list, if it is the last one of its hash.
fn seen(
    lists: &FlatLists<u32>,
    latest: &HashMap<u64, u32>,
    mark: u64,
    numbers: &[u32],
) -> Option<u32>
    ensures { IfSome result (λ n. slice_get lists.now n ≡ Some numbers.now) }
{
    let number = *latest.get(&mark)?;
    if number as usize >= lists.len() {
        return None;
    }
    if same_numbers(lists.get(number as usize), numbers) {
        Some(number)
    } else {
        None
    }
}

impl MailLists {
    /// No lists.
    pub fn make(alloc: Global) -> MailLists
        ensures { result ≡ [] }
    {
        MailLists {
            alloc,
            mails: Mails::make(alloc),
            lists: FlatLists::make(alloc),
            latest: HashMap::new(alloc),
        }
    }

    /// The number of messages in the list with this number.
    pub fn count(&self, list: u32) -> usize
        requires { list < length self.now }
        ensures { result ≡ length (get_or self.now list []) }
    {
        self.lists.get(list as usize).len()
    }

    /// The message at this index of the list with this number.
    pub fn mail(&self, list: u32, at: usize) -> &Mail
        requires there { list < length self.now }
        requires within { at < length (get_or self.now list []) }
        ensures { slice_get (get_or self.now list []) at ≡ Some (message_of result.now) }
    {
        self.mails.get(self.lists.get(list as usize)[at])
    }

    /// Makes `mails` the messages of the list with this number. An error means out of memory.
    pub fn read(&self, list: u32, mails: &mut Vec<Mail>) -> Result<(), AllocError>
        requires { list < length self.now }
        ensures { OnOk result (map message_of mails.new.items ≡ get_or self.now list []) }
    {
        mails.clear();
        push_messages(&self.mails, self.lists.get(list as usize), mails)
    }

    /// The number of a list of these messages, which is added unless it was found. None if it is new and there are 2^32
    /// lists. An error means out of memory, or that there would be more than 2^32 messages, or 2^32 or more numbers in
    /// all lists. Messages may then have been added, but no list.
    pub fn number_of(&mut self, mails: &[Mail]) -> Result<Option<u32>, AllocError>
        ensures found { IfOk result (λ o. IfSome o (λ n. slice_get self.new n ≡ Some (map message_of mails.now))) }
        ensures grows { take (length self.old) self.new ≡ self.old }
        ensures full { result ≡ Ok None → 2 ^ 32 ≤ length self.old }
    {
        let numbers = numbers_of(self.alloc, &mut self.mails, mails)?;
        let mark = mark_numbers(numbers.as_slice());
        if let Some(number) = seen(&self.lists, &self.latest, mark, numbers.as_slice()) {
            return Ok(Some(number));
        }
        let Ok(number) = u32::try_from(self.lists.len()) else {
            return Ok(None);
        };
        self.latest.insert(mark, number)?;
        self.lists.push(numbers.as_slice())?;
        Ok(Some(number))
    }
}
