//! Different messages, by number.
ghost use Rattle.std.specs.Prelude.{◌≡◌, ◌<◌, [], Some, IfOk, IfSome, OnErr, option_map, length, slice_get, take, true};
ghost use Rattle.message_queue.specs.Mails.{message_of};
ghost use Rattle.mail_numbers.specs.Messages.{messages_of};

use message_queue::Mail;
use object_moves::same_values;
use run_types::Value;
use std::alloc::{AllocError, Global};
use std::collections::HashMap;
use std::hash::{FoldHasher, Hasher};

/// At most 2^32 messages, numbered from 0. `latest` has the last number of each hash, and no proof depends on it. A
/// message can have two numbers after a collision of hashes.
#[derive(Drop)]
pub struct Mails {
    items: Vec<Mail>,
    latest: HashMap<u64, u32>,
}

fn same_mail(left: &Mail, right: &Mail) -> bool
    ensures { result ≡ true → message_of left.now ≡ message_of right.now }
{
    left.method.0 == right.method.0 && same_values(left.args.values(), right.args.values())
}

/// The hash of a message, for look-ups. Equal ones have equal hashes. No proof depends on it.
fn mark_mail(mail: &Mail) -> u64 {
    let mut mark = FoldHasher::default();
    mark.write_u32(mail.method.0);
    for value in mail.args.values() {
        match *value {
            Value::Int(number) => mark.write_i64(number),
            Value::Bool(truth) => mark.write_u8(u8::from(truth)),
            Value::Ref(name) => mark.write_u32(name),
            Value::Nil => mark.write_u8(2),
        }
    }
    mark.finish()
}

impl Mails {
    /// No messages.
    pub(crate) fn make(alloc: Global) -> Mails
        ensures { messages_of result ≡ [] }
    {
        Mails {
            items: Vec::new(alloc),
            latest: HashMap::new(alloc),
        }
    }

    /// The message with this number.
    pub(crate) fn get(&self, number: u32) -> &Mail
        requires { number < length (messages_of self.now) }
        ensures { slice_get (messages_of self.now) number ≡ Some (message_of result.now) }
    {
        &self.items[number as usize]
    }

    /// The number of this message, if it is the last one of its hash.
    fn seen(&self, mark: u64, mail: &Mail) -> Option<u32>
        ensures { IfSome result (λ n. slice_get (messages_of self.now) n ≡ Some (message_of mail.now)) }
    {
        let number = *self.latest.get(&mark)?;
        let other = self.items.as_slice().get(number as usize)?;
        if same_mail(other, mail) {
            Some(number)
        } else {
            None
        }
    }

    /// The number of this message, which is added unless it was found. An error means out of memory, or that there are
    /// 2^32 messages.
    pub(crate) fn number_of(&mut self, mail: &Mail) -> Result<u32, AllocError>
        ensures found { IfOk result (λ n. slice_get (messages_of self.new) n ≡ Some (message_of mail.now)) }
        ensures grows { take (length (messages_of self.old)) (messages_of self.new) ≡ messages_of self.old }
    {
        let mark = mark_mail(mail);
        if let Some(number) = self.seen(mark, mail) {
            return Ok(number);
        }
        let Ok(number) = u32::try_from(self.items.len()) else {
            return Err(AllocError);
        };
        self.latest.insert(mark, number)?;
        self.items.push(*mail)?;
        Ok(number)
    }
}
