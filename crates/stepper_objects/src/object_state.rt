//! One object: its class, its variables, its work and the error that it has met.
ghost use Rattle.std.specs.Prelude.{◌≡◌, OnOk, IfOk};
ghost use Rattle.pool_syntax.specs.TreeOf.{program_of, class_tree};
ghost use Rattle.pool_relation.specs.Action.{action};
ghost use Rattle.pool_relation.specs.Transition.{new_object};
ghost use Rattle.object_acts.specs.Acts.{acted, changed, Fits, Suits};
ghost use Rattle.stepper_terms.specs.Arguments.{now_args, now_names, now_choices};
ghost use Rattle.stepper_objects.specs.ObjectStates.{thing_object};

use object_acts::act::{Act, next_act};
use object_acts::change::Change;
use pool_syntax::{ClassDecl, Program};
use run_types::Error;
use std::alloc::{AllocError, Global};
use stepper_terms::changes::{nil_store, set};
use stepper_terms::contexts::{Binding, Continuation};

/// One object. `work` represents its term, and `fault` is the run-time error that it has met.
#[derive(Drop)]
pub struct ObjectState<'a> {
    pub class: u32,
    pub vars: Vec<Binding>,
    pub work: Continuation<'a>,
    pub fault: Option<Error>,
}

impl<'a> ObjectState<'a> {
    /// A new object of this class. Reports `AllocError` if memory runs out.
    pub fn make(alloc: Global, class: &'a ClassDecl) -> Result<ObjectState<'a>, AllocError>
        ensures { IfOk result (λ t. thing_object t ≡ new_object (class_tree class.now)) }
    {
        let vars = nil_store(alloc, class.vars.items())?;
        let work = Continuation::make(alloc, class.body.items())?;
        Ok(ObjectState {
            class: class.name.name.0,
            vars,
            work,
            fault: None,
        })
    }

    /// The next action of this object under the name `name`, whether or not it has met an error.
    pub fn act(&self, program: &'a Program, name: u32) -> Act<'a>
        ensures gives { action (program_of program.now) name (thing_object self.now)
            ≡ acted (thing_object self.now) (now_args self.now.work.next) (now_names self.now.work.next) (now_choices self.now.work.next) result }
        ensures suits { Suits self.now.work.calls.items self.now.work.next result }
    {
        next_act(&self.work, program, name, self.class, self.vars.as_slice())
    }

    /// Makes a change that fits the redex. Reports `AllocError` if memory runs out; the object is then unspecified.
    pub fn change(&mut self, alloc: Global, change: &Change<'a>) -> Result<(), AllocError>
        requires { Fits self.old.work.calls.items self.old.work.next change.now }
        ensures { OnOk result (thing_object self.new ≡ changed (thing_object self.old) (now_args self.old.work.next) change.now) }
    {
        match *change {
            Change::Becomes(value) => self.work.give(alloc, value),
            Change::Done => self.work.finish(alloc),
            Change::SetTemp { name, value } => self.work.assign(alloc, name, value),
            Change::SetVariable { name, value } => {
                set(&mut self.vars, name, value);
                self.work.assign(alloc, name, value)
            }
            Change::Branch(statements) => self.work.branch(alloc, statements),
            Change::Repeat { cond, body } => self.work.repeat(alloc, cond, body),
            Change::Unfold { cond, body } => self.work.unfold(alloc, cond, body),
            Change::Call(method) => self.work.call(alloc, method),
            Change::Leave(_) | Change::End => self.work.leave(alloc),
            Change::Returned => self.work.hand_over(alloc),
            Change::Wait { receiver, method } => {
                self.work.wait(receiver, method);
                Ok(())
            }
            Change::Serve {
                method,
                caller,
                args,
                after,
            } => self.work.serve(alloc, method, caller, args.values(), after),
            Change::Fault(error) => {
                self.fault = Some(error);
                Ok(())
            }
        }
    }
}
