//! The messages behind the early ones.
ghost use Rattle.std.specs.Prelude.{◌≡◌, ◌==◌, ◌↔◌, [], ◌∷◌, ◌++◌, OnOk, OnErr, IsTrue, option_map, slice_get};
ghost use Rattle.std.specs.BTreeMap.{values};
ghost use Rattle.std.specs.List.{find};
ghost use Rattle.std.specs.Set.{remove_key};
ghost use Rattle.pool_relation.specs.Transition.{names_method};
ghost use Rattle.message_queue.specs.declared.Mail.{Mail as OneMail};

use crate::Mail;
use crate::index::{stamp_named, stamp_of};
use pool_syntax::Named;
use run_types::NameId;
use std::alloc::{AllocError, Global};
use std::collections::{BTreeMap, BTreeSet};
use std::marker::Model;

/// Messages by their stamps, which rise in order of arrival. `index` has the method and the stamp of each message.
/// `next` is the next stamp. Empty ones use no memory.
#[derive(Drop)]
pub struct Behind {
    mails: BTreeMap<u64, Mail>,
    index: BTreeSet<(u32, u64)>,
    next: u64,
}

impl Model for Behind {
    ghost use Rattle.std.specs.Prelude.{List};
    ghost use Rattle.std.specs.BTreeMap.{values};
    ghost use Rattle.message_queue.specs.declared.Mail.{Mail};

    ghost Value = { List Mail };

    ghost use Rattle.message_queue.specs.Stamps.{IsKept};

    ghost view = { λ b. values b.mails };

    ghost invariant = { λ b. IsKept b.mails b.index b.next };
}

impl Behind {
    /// Makes an empty one.
    pub(crate) fn new(alloc: Global) -> Behind
        ensures { result ≡ [] }
    {
        Behind {
            mails: BTreeMap::new(alloc),
            index: BTreeSet::new(alloc),
            next: 0,
        }
    }

    /// Puts a message last. Reports `AllocError`, and changes nothing, if memory runs out or if all stamps were used.
    #[inline(never)]
    pub(crate) fn push(&mut self, mail: Mail) -> Result<(), AllocError>
        ensures ok { OnOk result (self.new ≡ self.old ++ mail ∷ []) }
        ensures err { OnErr result (self.new ≡ self.old) }
    {
        let stamp = self.next;
        if stamp == u64::MAX {
            return Err(AllocError);
        }
        let place = (mail.method.0, stamp);
        self.index.insert(place)?;
        match self.mails.insert(stamp, mail) {
            Ok(_) => {
                self.next = stamp + 1;
                Ok(())
            }
            Err(_) => {
                let _ = self.index.remove(&place);
                Err(AllocError)
            }
        }
    }

    /// Reports whether there is no message.
    pub(crate) fn is_empty(&self) -> bool
        ensures { IsTrue result ↔ (self.now ≡ []) }
    {
        self.mails.is_empty()
    }

    /// The first message. None if there is none.
    pub(crate) fn front(&self) -> Option<&Mail>
        ensures { option_map (λ m. m.now) result ≡ slice_get self.now 0 }
    {
        match self.mails.first_key_value() {
            Some((_, mail)) => Some(mail),
            None => None,
        }
    }

    /// The first message for one of these methods. None if there is none.
    pub(crate) fn first_named(&self, names: &[Named]) -> Option<&Mail>
        ensures { option_map (λ m. m.now) result ≡ find (λ (m : OneMail). names_method names.now m.method.0) self.now }
    {
        match stamp_named(&self.index, names) {
            Some(stamp) => self.mails.get(&stamp),
            None => None,
        }
    }

    /// The first message for this method. None if there is none.
    pub(crate) fn first_of(&self, method: NameId) -> Option<&Mail>
        ensures { option_map (λ m. m.now) result ≡ find (λ (m : OneMail). m.method.0 == method.0) self.now }
    {
        match stamp_of(&self.index, method) {
            Some(stamp) => self.mails.get(&stamp),
            None => None,
        }
    }

    /// Removes and returns the first message for this method. The others keep their order. None if there is none.
    pub(crate) fn take_of(&mut self, method: NameId) -> Option<Mail>
        ensures taken { result ≡ find (λ (m : OneMail). m.method.0 == method.0) self.old }
        ensures rest { self.new ≡ remove_key (λ (m : OneMail). m.method.0 == method.0) self.old }
    {
        match stamp_of(&self.index, method) {
            Some(stamp) => {
                let _ = self.index.remove(&(method.0, stamp));
                self.mails.remove(&stamp)
            }
            None => None,
        }
    }

    /// All messages by their stamps.
    pub(crate) fn mails(&self) -> &BTreeMap<u64, Mail>
        ensures { values result.now ≡ self.now }
    {
        &self.mails
    }
}
