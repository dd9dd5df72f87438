//! Transitions of two objects, transitions of messages, and the transition of any label.
ghost use Rattle.std.specs.Prelude.{◌≡◌, Some, None, ◌==◌, ◌&&◌, IfOk};
ghost use Rattle.pool_syntax.specs.TreeOf.{program_of};
ghost use Rattle.pool_relation.specs.Transition.{transition, has_message};
ghost use Rattle.run_types.specs.Same.{are_same};
ghost use Rattle.pool_relation.specs.Configuration.{messages_of};
ghost use Rattle.pool_semantics.specs.Plains.{Stepped, configuration};

use crate::plain::mail::{post, unpost};
use crate::plain::objects::update;
use crate::plain::state::State;
use message_queue::Mail;
use object_acts::arguments::has_args;
use object_acts::change::Change;
use object_acts::lookup::find_method;
use operators::same;
use pool_syntax::Named;
use run_types::{Args, Label, NameId, Value};
use std::alloc::AllocError;
use stepper_objects::offers::offer_to;

/// Whether these values are the same, one by one.
fn same_values(values: &[Value], args: &[Value]) -> bool
    ensures { result ≡ are_same values.now args.now }
{
    let mut values = values;
    let mut args = args;
    while let Some((value, more)) = values.split_first() {
        match args.split_first() {
            None => return false,
            Some((arg, others)) => {
                if !same(*value, *arg) {
                    return false;
                }
                args = others;
            }
        }
        values = more;
    }
    args.is_empty()
}

/// Whether the message is for this method and has these arguments.
fn is_mail(mail: &Mail, method: NameId, args: &[Value]) -> bool
    ensures { result ≡ (mail.now.method.0 == method.0 && are_same mail.now.args args.now) }
{
    mail.method.0 == method.0 && same_values(mail.args.values(), args)
}

impl<'a> State<'a> {
    /// Whether a message from the sender to the receiver is for one of these methods.
    pub fn barred(&self, sender: u32, receiver: u32, names: &[Named]) -> bool
        ensures { result ≡ has_message names.now (messages_of (configuration self.now) sender receiver) }
    {
        match self.messages.get(&(sender, receiver)) {
            None => false,
            Some(queue) => queue.first_named(names).is_some(),
        }
    }

    /// Makes the transition in which the receiver answers this call of the caller. Reports whether it is possible, or
    /// `AllocError` if memory runs out.
    pub fn answer(
        &mut self,
        receiver: u32,
        caller: u32,
        method: NameId,
        args: Args,
    ) -> Result<bool, AllocError>
        ensures program { self.new.program ≡ self.old.program }
        ensures step { IfOk result (λ b. Stepped b (transition (program_of self.old.program.now) (configuration self.old) (Label.Answer receiver caller method args)) self.old self.new) }
    {
        let Some((asking, sends)) = self.acting(caller) else {
            return Ok(false);
        };
        if !sends.calls(receiver, method, has_args(&asking.work, args.values())) {
            return Ok(false);
        }
        let Some((serving, act)) = self.acting(receiver) else {
            return Ok(false);
        };
        let Some(offer) = offer_to(&serving.work, &act, method.0) else {
            return Ok(false);
        };
        if self.barred(caller, receiver, offer.names) {
            return Ok(false);
        }
        let Some(found) = find_method(self.program, serving.class, method.0, args.values().len())
        else {
            return Ok(false);
        };
        let serve = Change::Serve {
            method: found,
            caller: Some(caller),
            args,
            after: offer.after,
        };
        update(
            self.alloc,
            &mut self.objects,
            caller,
            &Change::Wait { receiver, method },
        )?;
        update(self.alloc, &mut self.objects, receiver, &serve)?;
        Ok(true)
    }

    /// Makes the transition in which the object sends this message to the receiver. Reports whether it is possible, or
    /// `AllocError` if memory runs out.
    pub fn send(
        &mut self,
        object: u32,
        receiver: u32,
        method: NameId,
        args: Args,
    ) -> Result<bool, AllocError>
        ensures program { self.new.program ≡ self.old.program }
        ensures step { IfOk result (λ b. Stepped b (transition (program_of self.old.program.now) (configuration self.old) (Label.Send object receiver method args)) self.old self.new) }
    {
        let Some((posting, act)) = self.acting(object) else {
            return Ok(false);
        };
        if !act.posts(receiver, method, has_args(&posting.work, args.values())) {
            return Ok(false);
        }
        if !self.objects.contains_key(&receiver) {
            return Ok(false);
        }
        update(self.alloc, &mut self.objects, object, &Change::Done)?;
        let mail = Mail { method, args };
        post(self.alloc, &mut self.messages, object, receiver, mail)?;
        Ok(true)
    }

    /// Makes the transition in which the receiver takes this message of the sender. Reports whether it is possible, or
    /// `AllocError` if memory runs out.
    pub fn take(
        &mut self,
        receiver: u32,
        sender: u32,
        method: NameId,
        args: Args,
    ) -> Result<bool, AllocError>
        ensures program { self.new.program ≡ self.old.program }
        ensures step { IfOk result (λ b. Stepped b (transition (program_of self.old.program.now) (configuration self.old) (Label.Take receiver sender method args)) self.old self.new) }
    {
        let Some((serving, act)) = self.acting(receiver) else {
            return Ok(false);
        };
        let Some(offer) = offer_to(&serving.work, &act, method.0) else {
            return Ok(false);
        };
        let Some(queue) = self.messages.get(&(sender, receiver)) else {
            return Ok(false);
        };
        let Some(mail) = queue.first_named(offer.names) else {
            return Ok(false);
        };
        if !is_mail(mail, method, args.values()) {
            return Ok(false);
        }
        let Some(found) = find_method(self.program, serving.class, method.0, args.values().len())
        else {
            return Ok(false);
        };
        let serve = Change::Serve {
            method: found,
            caller: None,
            args,
            after: offer.after,
        };
        update(self.alloc, &mut self.objects, receiver, &serve)?;
        unpost(&mut self.messages, sender, receiver, method);
        Ok(true)
    }

    /// Makes the transition of the label. Reports whether it is possible, or `AllocError` if memory runs out; the
    /// state is then unspecified.
    pub fn step(&mut self, label: &Label) -> Result<bool, AllocError>
        ensures program { self.new.program ≡ self.old.program }
        ensures step { IfOk result (λ b. Stepped b (transition (program_of self.old.program.now) (configuration self.old) label.now) self.old self.new) }
    {
        match *label {
            Label::Local { object } => self.local(object),
            Label::New {
                object,
                name,
                class,
            } => self.new(object, name, class),
            Label::Answer {
                receiver,
                caller,
                method,
                args,
            } => self.answer(receiver, caller, method, args),
            Label::Return {
                receiver,
                caller,
                value,
            } => self.give_back(receiver, caller, value),
            Label::Send {
                object,
                receiver,
                method,
                args,
            } => self.send(object, receiver, method, args),
            Label::Take {
                receiver,
                sender,
                method,
                args,
            } => self.take(receiver, sender, method, args),
            Label::Write { object, item } => self.write(object, item),
            Label::Pick { object, alt } => self.pick(object, alt),
            Label::Fault { object, error } => self.fault(object, error),
        }
    }
}
