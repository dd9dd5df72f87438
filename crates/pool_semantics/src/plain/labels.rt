//! The labels that a search tries, and transitions that need no choice.
ghost use Rattle.std.specs.Prelude.{◌≡◌, ◌≤◌, ℕ, ◌++◌, Some, None, length, map, is_some, IfSome, IfNone, OnOk, true, false};
ghost use Rattle.std.specs.BTreeMap.{values};
ghost use Rattle.pool_syntax.specs.TreeOf.{program_of};
ghost use Rattle.run_types.specs.declared.types.Label.{Label};
ghost use Rattle.pool_relation.specs.Action.{Object, action};
ghost use Rattle.pool_relation.specs.Configuration.{Configuration, object_of};
ghost use Rattle.pool_relation.specs.Transition.{transition};
ghost use Rattle.reachability.specs.Labels.{own_labels, object_labels, message_labels, labels_to_try, picks, takes, is_silent};
ghost use Rattle.reachability.specs.Search.{needs_no_choice};
ghost use Rattle.stepper_terms.specs.Arguments.{now_args, now_names, now_choices};
ghost use Rattle.object_acts.specs.Acts.{acted};
ghost use Rattle.stepper_objects.specs.ObjectStates.{thing_object};
ghost use Rattle.message_queue.specs.Mails.{message_of};
ghost use Rattle.pool_semantics.specs.Mails.{queued};
ghost use Rattle.pool_semantics.specs.PlainOf.{configuration_of, program_tree, is_spent};
ghost use Rattle.pool_semantics.specs.Plains.{configuration};
ghost use Rattle.pool_semantics.specs.Shown.{shown};
ghost use Rattle.pool_semantics.specs.Sound.{Sound};
ghost use Rattle.pool_semantics.specs.SearchQueries.{free_label, free_at, silent_at};

use crate::plain::Plain;
use crate::plain::redex::redex_args;
use crate::plain::state::{State, next_act};
use message_queue::{Mail, MessageQueue};
use object_acts::act::Act;
use pool_syntax::Program;
use run_types::Label;
use std::alloc::AllocError;
use std::collections::{BTreeMap, VecDeque};
use stepper_objects::object_state::ObjectState;
use stepper_terms::contexts::{Continuation, Focus, Task};

/// The label of this action, if it needs no choice.
fn free_label(object: u32, work: &Continuation<'_>, act: &Act<'_>) -> Option<Label>
    ensures { (x : Object) → is_some (shown (acted x (now_args work.now.next) (now_names work.now.next) (now_choices work.now.next) act.now)) ≡ true
        → result ≡ free_label object (acted x (now_args work.now.next) (now_names work.now.next) (now_choices work.now.next) act.now) }
{
    match *act {
        Act::Local(_) => Some(Label::Local { object }),
        Act::Fault(error) => Some(Label::Fault { object, error }),
        Act::Async { to, method } => match redex_args(work) {
            None => None,
            Some(args) => Some(Label::Send {
                object,
                receiver: to,
                method,
                args,
            }),
        },
        Act::Write(item) => Some(Label::Write { object, item }),
        Act::Return { caller, value } => Some(Label::Return {
            receiver: object,
            caller,
            value,
        }),
        _ => None,
    }
}

/// Adds a pick of each alternative of the select that is the redex, at most 64. Reports `AllocError` if memory runs
/// out.
fn push_picks(into: &mut Vec<Label>, object: u32, work: &Continuation<'_>) -> Result<(), AllocError>
    requires { length (now_choices work.now.next) ≤ 64 }
    ensures { OnOk result (into.new.items ≡ into.old.items ++ picks object 1 (now_choices work.now.next)) }
{
    let Focus::Statement {
        task: Task::Select { guards },
        ..
    } = &work.next
    else {
        return Ok(());
    };
    let mut alt = 0;
    while (alt as usize) < guards.len() {
        alt += 1;
        into.push(Label::Pick { object, alt })?;
    }
    Ok(())
}

/// Adds the labels that begin with this action of the object. A new object gets the name `name`. Reports `AllocError`
/// if memory runs out.
fn push_own(
    into: &mut Vec<Label>,
    name: u32,
    object: u32,
    work: &Continuation<'_>,
    act: &Act<'_>,
) -> Result<(), AllocError>
    requires { length (now_choices work.now.next) ≤ 64 }
    ensures { (x : Object) → is_some (shown (acted x (now_args work.now.next) (now_names work.now.next) (now_choices work.now.next) act.now)) ≡ true
        → OnOk result (into.new.items ≡ into.old.items ++ own_labels name object (acted x (now_args work.now.next) (now_names work.now.next) (now_choices work.now.next) act.now)) }
{
    if let Some(label) = free_label(object, work, act) {
        into.push(label)?;
        return Ok(());
    }
    match *act {
        Act::New(class) => {
            into.push(Label::New {
                object,
                name,
                class,
            })?;
            Ok(())
        }
        Act::Send { to, method } => match redex_args(work) {
            None => Ok(()),
            Some(args) => {
                into.push(Label::Answer {
                    receiver: to,
                    caller: object,
                    method,
                    args,
                })?;
                Ok(())
            }
        },
        Act::Select => push_picks(into, object, work),
        _ => Ok(()),
    }
}

/// Adds a take of each of these messages of this pair. Reports `AllocError` if memory runs out.
fn push_early(
    into: &mut Vec<Label>,
    sender: u32,
    receiver: u32,
    mails: &VecDeque<Mail>,
) -> Result<(), AllocError>
    ensures { OnOk result (into.new.items ≡ into.old.items ++ takes (sender, receiver) (map message_of mails.now.items)) }
{
    let mut at = 0;
    while at < mails.len() {
        into.push(Label::Take {
            receiver,
            sender,
            method: mails[at].method,
            args: mails[at].args,
        })?;
        at += 1;
    }
    Ok(())
}

/// The same of messages by their stamps.
fn push_later(
    into: &mut Vec<Label>,
    sender: u32,
    receiver: u32,
    mails: &BTreeMap<u64, Mail>,
) -> Result<(), AllocError>
    ensures { OnOk result (into.new.items ≡ into.old.items ++ takes (sender, receiver) (map message_of (values mails.now))) }
{
    for mail in mails.values() {
        into.push(Label::Take {
            receiver,
            sender,
            method: mail.method,
            args: mail.args,
        })?;
    }
    Ok(())
}

/// Adds a take of each message of this pair. Reports `AllocError` if memory runs out.
fn push_takes(
    into: &mut Vec<Label>,
    sender: u32,
    receiver: u32,
    queue: &MessageQueue,
) -> Result<(), AllocError>
    ensures { OnOk result (into.new.items ≡ into.old.items ++ takes (sender, receiver) (queued queue.now)) }
{
    let (early, later) = queue.parts();
    push_early(into, sender, receiver, early)?;
    push_later(into, sender, receiver, later)
}

/// Adds the labels of this object's next action. The object is in a typed configuration of the program. A new object
/// gets the name `name`. Reports `AllocError` if memory runs out.
pub fn push_labels<'a>(
    program: &'a Program,
    object: u32,
    thing: &ObjectState<'a>,
    name: u32,
    into: &mut Vec<Label>,
) -> Result<(), AllocError>
    requires { (c : Configuration) × Sound (program_of program.now) c × (object_of c object ≡ Some (thing_object thing.now)) }
    ensures { OnOk result (into.new.items ≡ into.old.items ++ own_labels name object (action (program_of program.now) object (thing_object thing.now))) }
{
    let (work, act) = next_act(program, object, thing);
    push_own(into, name, object, work, &act)
}

impl<'a> State<'a> {
    /// Adds the labels of this object's next action. A new object gets the name `name`. Reports `AllocError` if memory
    /// runs out.
    fn push_object(&self, object: u32, name: u32, into: &mut Vec<Label>) -> Result<(), AllocError>
        requires { Sound (program_of self.now.program.now) (configuration self.now) }
        ensures { (x : Object) → object_of (configuration self.now) object ≡ Some x
            → OnOk result (into.new.items ≡ into.old.items ++ own_labels name object (action (program_of self.now.program.now) object x)) }
    {
        match self.next_of(object) {
            None => Ok(()),
            Some((thing, act)) => push_own(into, name, object, &thing.work, &act),
        }
    }

    /// The same for all objects.
    fn push_objects(&self, name: u32, into: &mut Vec<Label>) -> Result<(), AllocError>
        requires { Sound (program_of self.now.program.now) (configuration self.now) }
        ensures { OnOk result (into.new.items ≡ into.old.items ++ object_labels (program_of self.now.program.now) name (configuration self.now).objects) }
    {
        for (object, _thing) in &self.objects {
            self.push_object(*object, name, into)?;
        }
        Ok(())
    }

    /// The label of this object's next action, if it needs no choice. None if the object does not exist or has met an
    /// error.
    fn free_at(&self, object: u32) -> Option<Label>
        requires { Sound (program_of self.now.program.now) (configuration self.now) }
        ensures { result ≡ free_at (program_of self.now.program.now) (configuration self.now) object }
    {
        match self.acting(object) {
            None => None,
            Some((thing, act)) => free_label(object, &thing.work, &act),
        }
    }

    /// The same, but None if the label is a write.
    fn silent_at(&self, object: u32) -> Option<Label>
        requires { Sound (program_of self.now.program.now) (configuration self.now) }
        ensures { result ≡ silent_at (program_of self.now.program.now) (configuration self.now) object }
    {
        match self.free_at(object) {
            Some(Label::Write { .. }) => None,
            label => label,
        }
    }
}

impl<'a> Plain<'a> {
    /// Adds the labels that a search tries: those of each object's next action, and a take of each message. A new
    /// object gets the name `next`. Reports `AllocError` if memory runs out.
    pub fn labels(&self, next: u32, into: &mut Vec<Label>) -> Result<(), AllocError>
        requires { is_spent self.now ≡ false }
        ensures { OnOk result (into.new.items ≡ into.old.items ++ labels_to_try (program_tree self.now) next (configuration_of self.now)) }
    {
        self.state.push_objects(next, into)?;
        for (pair, queue) in &self.state.messages {
            push_takes(into, pair.0, pair.1, queue)?;
        }
        Ok(())
    }

    /// A possible transition that needs no choice, so that its order in a run does not matter. None exactly if there
    /// is none.
    pub fn without_choice(&self) -> Option<Label>
        requires { is_spent self.now ≡ false }
        ensures free { IfSome result (λ l. needs_no_choice l ≡ true) }
        ensures possible { IfSome result (λ l. (d : Configuration) × (transition (program_tree self.now) (configuration_of self.now) l ≡ Some d)) }
        ensures none { IfNone result ((l : Label) → needs_no_choice l ≡ true → transition (program_tree self.now) (configuration_of self.now) l ≡ None) }
    {
        for (object, _thing) in &self.state.objects {
            let label = self.state.free_at(*object);
            if label.is_some() {
                return label;
            }
        }
        None
    }

    /// A possible transition that needs no choice and writes nothing, so that its order in a run does not matter for
    /// what is written. None exactly if there is none.
    pub fn without_write(&self) -> Option<Label>
        requires { is_spent self.now ≡ false }
        ensures silent { IfSome result (λ l. is_silent l ≡ true) }
        ensures possible { IfSome result (λ l. (d : Configuration) × (transition (program_tree self.now) (configuration_of self.now) l ≡ Some d)) }
        ensures none { IfNone result ((l : Label) → is_silent l ≡ true → transition (program_tree self.now) (configuration_of self.now) l ≡ None) }
    {
        for (object, _thing) in &self.state.objects {
            let label = self.state.silent_at(*object);
            if label.is_some() {
                return label;
            }
        }
        None
    }
}
