//! The plain stepper, which makes transitions of the relation, one label at a time.
mod items;
mod labels;
mod mail;
mod movers;
mod moving;
mod objects;
mod redex;
mod state;
mod steps;
mod waits;

ghost use Rattle.std.specs.Prelude.{◌≡◌, false};
ghost use Rattle.pool_syntax.specs.TreeOf.{program_of};
ghost use Rattle.pool_semantics.specs.Plains.{configuration};
ghost use Rattle.pool_semantics.specs.Sound.{Sound};
ghost use Rattle.pool_relation.specs.Progress.{agent};

pub use crate::plain::labels::push_labels;
pub use crate::plain::mail::{post, unpost};
use crate::plain::moving::lesser;
use crate::plain::objects::add;
pub use crate::plain::redex::redex_args;
pub use crate::plain::state::State;
pub use crate::plain::waits::Waiting;
use class_check::Checked;
use run_types::Label;
pub use run_types::Redex;
use std::alloc::{AllocError, Global};
use std::collections::BTreeMap;

/// The reason why a label was not applied.
#[derive(Clone, Copy)]
pub enum Refuse {
    /// The label is not possible. The redex is that of the receiver for Answer, Return and Take, and that of the
    /// label's object for every other label.
    NotPossible { redex: Redex },
    /// Memory ran out, now or before. The `Plain` is spent.
    Memory,
}

/// A typed configuration of a checked program. It is spent after it has run out of memory.
#[derive(Drop)]
pub struct Plain<'a> {
    state: State<'a>,
    spent: bool,
    ghost typed: { ∥ (spent ≡ false → Sound (program_of state.program.now) (configuration state)) ∥₁ },
}

/// The object that makes the transition. It is the receiver for Answer, Return and Take, and the label's object for
/// every other label.
pub fn agent(label: &Label) -> u32
    ensures { result ≡ agent label.now }
{
    match *label {
        Label::Answer { receiver, .. }
        | Label::Return { receiver, .. }
        | Label::Take { receiver, .. } => receiver,
        Label::Local { object }
        | Label::New { object, .. }
        | Label::Send { object, .. }
        | Label::Write { object, .. }
        | Label::Pick { object, .. }
        | Label::Fault { object, .. } => object,
    }
}

impl<'a> Plain<'a> {
    ghost use Rattle.std.specs.Prelude.{◌<◌, Some, None, Err, IfOk, IfSome, IfNone, OnOk, true};
    ghost use Rattle.run_types.specs.declared.types.Label.{Label};
    ghost use Rattle.pool_relation.specs.Action.{Object, action};
    ghost use Rattle.pool_relation.specs.Configuration.{object_of};
    ghost use Rattle.pool_semantics.specs.PlainOf.{state_of, configuration_of, program_tree, is_spent};
    ghost use Rattle.pool_relation.specs.Typed.{GoesWrong, Typed};
    ghost use Rattle.pool_relation.specs.Progress.{HasOwnTransition};
    ghost use Rattle.pool_relation.specs.Transition.{transition, start};
    ghost use Rattle.pool_semantics.specs.Shown.{Shows};

    /// The start of the program: one object of its last class, under this name. Reports `AllocError` if memory runs
    /// out.
    pub fn make(alloc: Global, program: &Checked<'a>, root: u32) -> Result<Plain<'a>, AllocError>
        ensures start { IfOk result (λ s. start (program_of program.now.program.now) root ≡ Some (configuration_of s)) }
        ensures program { IfOk result (λ s. program_tree s ≡ program_of program.now.program.now) }
        ensures fresh { IfOk result (λ s. is_spent s ≡ false) }
    {
        let Some(class) = program.program.classes.items().last() else {
            unreachable!();
        };
        let mut objects = BTreeMap::new(alloc);
        match add(alloc, &mut objects, root, class) {
            Err(error) => {
                objects.destroy_empty();
                Err(error)
            }
            Ok(()) => Ok(Plain {
                state: State {
                    alloc,
                    program: program.program,
                    objects,
                    messages: BTreeMap::new(alloc),
                },
                spent: false,
            }),
        }
    }

    /// The `Plain` with this state. The program has no class faults, and the configuration is typed.
    pub fn of(state: State<'a>) -> Plain<'a>
        requires { ∥ Sound (program_of state.program.now) (configuration state) ∥₁ }
        ensures state { state_of result ≡ state.entry }
        ensures fresh { is_spent result ≡ false }
    {
        Plain {
            state,
            spent: false,
        }
    }

    /// The program, the objects and the messages.
    pub fn state(&self) -> &State<'a>
        ensures state { result.now ≡ state_of self.now }
        ensures sound { is_spent self.now ≡ false → ∥ Sound (program_tree self.now) (configuration_of self.now) ∥₁ }
    {
        &self.state
    }

    /// The next action of the object of this name. It is `Faulted` if the object has met an error, and `NoObject` if
    /// no object has the name.
    pub fn redex(&self, object: u32) -> Redex
        ensures told { (r : Redex) → Shows (program_tree self.now) (configuration_of self.now) object r → result ≡ r }
        ensures shown { is_spent self.now ≡ false → Shows (program_tree self.now) (configuration_of self.now) object result }

        // No object goes wrong.
        ensures right { is_spent self.now ≡ false → (x : Object) → object_of (configuration_of self.now) object ≡ Some x
            → ¬ (GoesWrong (program_tree self.now) (configuration_of self.now) object (action (program_tree self.now) object x)) }
    {
        match self.state.shown(object) {
            Some(redex) => redex,
            None => Redex::NoObject,
        }
    }

    /// The least object that can make a transition. None exactly if no label is possible. Uses no memory.
    pub fn moving(&self) -> Option<u32>
        requires { is_spent self.now ≡ false }
        ensures some { IfSome result (λ o. HasOwnTransition (program_tree self.now) (configuration_of self.now) o) }
        ensures least { IfSome result (λ o. (lab : Label) → agent lab < o → transition (program_tree self.now) (configuration_of self.now) lab ≡ None) }
        ensures none { IfNone result ((lab : Label) → transition (program_tree self.now) (configuration_of self.now) lab ≡ None) }
    {
        lesser(
            self.state.least_by_objects(),
            self.state.least_by_messages(),
        )
    }

    /// Makes the transition of the label. Reports `NotPossible` exactly if the label is not possible; the
    /// configuration is then unchanged. Reports `Memory` if memory runs out or ran out before; the `Plain` is then
    /// spent.
    pub fn apply(&mut self, label: &Label) -> Result<(), Refuse>
        ensures made { OnOk result (transition (program_tree self.old) (configuration_of self.old) label.now ≡ Some (configuration_of self.new)) }
        ensures refused { (r : Redex) → result ≡ Err (Refuse.NotPossible r)
            → (transition (program_tree self.old) (configuration_of self.old) label.now ≡ None)
            × (configuration_of self.new ≡ configuration_of self.old)
            × Shows (program_tree self.old) (configuration_of self.old) (agent label.now) r }
        ensures program { program_tree self.new ≡ program_tree self.old }
        ensures memory { result ≡ Err Refuse.Memory → is_spent self.new ≡ true }
        ensures typed { is_spent self.new ≡ false → Typed (program_tree self.new) (configuration_of self.new) }
        ensures going_on { (result ≡ Err Refuse.Memory → ⊥) → (is_spent self.old ≡ false) × (is_spent self.new ≡ false) }
    {
        if self.spent {
            return Err(Refuse::Memory);
        }
        match self.state.step(label) {
            Err(_) => {
                self.spent = true;
                Err(Refuse::Memory)
            }
            Ok(made) => {
                if made {
                    return Ok(());
                }
                Err(Refuse::NotPossible {
                    redex: self.redex(agent(label)),
                })
            }
        }
    }
}
