//! The objects and messages of a configuration, and transitions of one object by their labels.
ghost use Rattle.std.specs.Prelude.{◌≡◌, Some, None, IfOk, IfSome, IfNone, true, false};
ghost use Rattle.pool_syntax.specs.TreeOf.{program_of};
ghost use Rattle.stepper_objects.specs.declared.object_state.ObjectState.{ObjectState};
ghost use Rattle.pool_relation.specs.Transition.{transition, running};
ghost use Rattle.run_types.specs.Same.{error_number};
ghost use Rattle.pool_relation.specs.Action.{action};
ghost use Rattle.pool_relation.specs.Configuration.{object_of};
ghost use Rattle.object_acts.specs.Acts.{acted};
ghost use Rattle.stepper_objects.specs.ObjectStates.{thing_object};
ghost use Rattle.stepper_terms.specs.Arguments.{now_args, now_names, now_choices};
ghost use Rattle.pool_semantics.specs.Shown.{shown_at};
ghost use Rattle.pool_semantics.specs.Plains.{Doing, Stepped, configuration};

use crate::plain::items::{same_error, same_item};
use crate::plain::objects::{add, update};
use crate::plain::redex::show;
use message_queue::MessageQueue;
use object_acts::act::Act;
use object_acts::change::Change;
use object_acts::lookup::find_class;
use pool_syntax::Program;
use run_types::{Error, Item, Label, NameId, Redex, Value};
use std::alloc::{AllocError, Global};
use std::collections::BTreeMap;
use stepper_objects::object_state::ObjectState;
use stepper_objects::offers::plain_alt;
use stepper_terms::contexts::Continuation;

/// A configuration of this program. `messages` is by sender and receiver, and a pair without messages has no entry.
#[derive(Drop)]
pub struct State<'a> {
    pub alloc: Global,
    pub program: &'a Program,
    pub objects: BTreeMap<u32, ObjectState<'a>>,
    pub messages: BTreeMap<(u32, u32), MessageQueue>,
}

/// The next action of the object of this name.
pub fn next_act<'a, 'b>(
    program: &'a Program,
    object: u32,
    thing: &'b ObjectState<'a>,
) -> (&'b Continuation<'a>, Act<'a>)
    ensures work { result.0.now ≡ thing.now.work }
    ensures act { action (program_of program.now) object (thing_object thing.now)
        ≡ acted (thing_object thing.now) (now_args thing.now.work.next) (now_names thing.now.work.next) (now_choices thing.now.work.next) result.1 }
{
    (&thing.work, thing.act(program, object))
}

impl<'a> State<'a> {
    /// The object of this name with its next action. None if it does not exist or has met an error.
    pub fn acting(&self, object: u32) -> Option<(&ObjectState<'a>, Act<'a>)>
        ensures some { IfSome result (λ r. Doing (program_of self.now.program.now) self.now.objects object r.0.now r.1) }
        ensures none { IfNone result (running (configuration self.now) object ≡ None) }
    {
        match self.objects.get(&object) {
            None => None,
            Some(thing) => match thing.fault {
                Some(_) => None,
                None => Some((thing, thing.act(self.program, object))),
            },
        }
    }

    /// The object of this name with its next action, even if it has met an error. None if it does not exist.
    pub fn next_of(&self, object: u32) -> Option<(&ObjectState<'a>, Act<'a>)>
        ensures some { IfSome result
            (λ r. (object_of (configuration self.now) object ≡ Some (thing_object r.0.now))
            × (action (program_of self.now.program.now) object (thing_object r.0.now)
            ≡ acted (thing_object r.0.now) (now_args r.0.now.work.next) (now_names r.0.now.work.next) (now_choices r.0.now.work.next) r.1)) }
        ensures none { IfNone result (object_of (configuration self.now) object ≡ None) }
    {
        match self.objects.get(&object) {
            None => None,
            Some(thing) => Some((thing, thing.act(self.program, object))),
        }
    }

    /// Makes the local transition of the object. Reports whether it is possible, or `AllocError` if memory runs out.
    pub fn local(&mut self, object: u32) -> Result<bool, AllocError>
        ensures program { self.new.program ≡ self.old.program }
        ensures step { IfOk result (λ b. Stepped b (transition (program_of self.old.program.now) (configuration self.old) (Label.Local object)) self.old self.new) }
    {
        match self.acting(object) {
            None => Ok(false),
            Some((_, act)) => match act {
                Act::Local(change) => {
                    update(self.alloc, &mut self.objects, object, &change)?;
                    Ok(true)
                }
                _ => Ok(false),
            },
        }
    }

    /// Makes the transition in which the object makes a new one of the class, under this name. Reports whether it is
    /// possible, or `AllocError` if memory runs out.
    pub fn new(&mut self, object: u32, name: u32, class: NameId) -> Result<bool, AllocError>
        ensures program { self.new.program ≡ self.old.program }
        ensures step { IfOk result (λ b. Stepped b (transition (program_of self.old.program.now) (configuration self.old) (Label.New object name class)) self.old self.new) }
    {
        match self.acting(object) {
            None => Ok(false),
            Some((_, act)) => match act {
                Act::New(made) => {
                    if made.0 != class.0 {
                        return Ok(false);
                    }
                    if self.objects.contains_key(&name) {
                        return Ok(false);
                    }
                    match find_class(self.program, class.0) {
                        None => Ok(false),
                        Some(declared) => {
                            let change = Change::Becomes(Value::Ref(name));
                            update(self.alloc, &mut self.objects, object, &change)?;
                            add(self.alloc, &mut self.objects, name, declared)?;
                            Ok(true)
                        }
                    }
                }
                _ => Ok(false),
            },
        }
    }

    /// Makes the transition in which the object writes this item. Reports whether it is possible, or `AllocError` if
    /// memory runs out.
    pub fn write(&mut self, object: u32, item: Item) -> Result<bool, AllocError>
        ensures program { self.new.program ≡ self.old.program }
        ensures step { IfOk result (λ b. Stepped b (transition (program_of self.old.program.now) (configuration self.old) (Label.Write object item)) self.old self.new) }
    {
        match self.acting(object) {
            None => Ok(false),
            Some((_, act)) => match act {
                Act::Write(written) => {
                    if !same_item(written, item) {
                        return Ok(false);
                    }
                    update(self.alloc, &mut self.objects, object, &Change::Done)?;
                    Ok(true)
                }
                _ => Ok(false),
            },
        }
    }

    /// Makes the transition in which the object meets this error. Reports whether it is possible, or `AllocError` if
    /// memory runs out.
    pub fn fault(&mut self, object: u32, error: Error) -> Result<bool, AllocError>
        ensures program { self.new.program ≡ self.old.program }
        ensures step { IfOk result (λ b. Stepped b (transition (program_of self.old.program.now) (configuration self.old) (Label.Fault object error)) self.old self.new) }
    {
        match self.acting(object) {
            None => Ok(false),
            Some((_, act)) => match act {
                Act::Fault(met) => {
                    if !same_error(met, error) {
                        return Ok(false);
                    }
                    update(self.alloc, &mut self.objects, object, &Change::Fault(error))?;
                    Ok(true)
                }
                _ => Ok(false),
            },
        }
    }

    /// Makes the transition in which the object picks this alternative, counted from 1. Reports whether it is
    /// possible, or `AllocError` if memory runs out.
    pub fn pick(&mut self, object: u32, alt: u32) -> Result<bool, AllocError>
        ensures program { self.new.program ≡ self.old.program }
        ensures step { IfOk result (λ b. Stepped b (transition (program_of self.old.program.now) (configuration self.old) (Label.Pick object alt)) self.old self.new) }
    {
        match self.acting(object) {
            None => Ok(false),
            Some((thing, act)) => match act {
                Act::Select => match plain_alt(&thing.work, alt) {
                    None => Ok(false),
                    Some(work) => {
                        update(self.alloc, &mut self.objects, object, &Change::Branch(work))?;
                        Ok(true)
                    }
                },
                _ => Ok(false),
            },
        }
    }

    /// Makes the transition in which the receiver returns the value to the caller. Reports whether it is possible, or
    /// `AllocError` if memory runs out.
    pub fn give_back(
        &mut self,
        receiver: u32,
        caller: u32,
        value: Value,
    ) -> Result<bool, AllocError>
        ensures program { self.new.program ≡ self.old.program }
        ensures step { IfOk result (λ b. Stepped b (transition (program_of self.old.program.now) (configuration self.old) (Label.Return receiver caller value)) self.old self.new) }
    {
        let Some((_, act)) = self.acting(receiver) else {
            return Ok(false);
        };
        if !act.returns(caller, value) {
            return Ok(false);
        }
        let Some((_, waits)) = self.acting(caller) else {
            return Ok(false);
        };
        if !waits.waits_for(receiver) {
            return Ok(false);
        }
        update(self.alloc, &mut self.objects, receiver, &Change::Returned)?;
        update(
            self.alloc,
            &mut self.objects,
            caller,
            &Change::Becomes(value),
        )?;
        Ok(true)
    }

    /// The next action of the object in the form for callers. None if it is stuck, or if it has more than 8 arguments
    /// for another object.
    pub fn shown(&self, object: u32) -> Option<Redex>
        ensures { result ≡ shown_at (program_of self.now.program.now) (configuration self.now) object }
    {
        if !self.objects.contains_key(&object) {
            return Some(Redex::NoObject);
        }
        match self.acting(object) {
            None => Some(Redex::Faulted),
            Some((thing, act)) => show(&thing.work, &act),
        }
    }
}
