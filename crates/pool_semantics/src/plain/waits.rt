//! Objects that are at a call or in one, that have met an error, or that are left over.
ghost use Rattle.std.specs.Prelude.{◌≡◌, ◌≢◌, ◌≤◌, ℕ, List, Some, None, IfSome, IfNone, true, false};
ghost use Rattle.pool_syntax.specs.TreeOf.{program_of};
ghost use Rattle.run_types.specs.declared.types.Value.{Value};
ghost use Rattle.pool_syntax.specs.declared.tree.Named.{Named};
ghost use Rattle.pool_relation.specs.Reducible.{Choice};
ghost use Rattle.pool_relation.specs.Action.{Object, action};
ghost use Rattle.pool_relation.specs.Configuration.{object_of};
ghost use Rattle.reachability.specs.Search.{is_left_over, WaitsAt, StaysAt, HasLeftOver, IsFaulty};
ghost use Rattle.object_acts.specs.Acts.{acted};
ghost use Rattle.pool_semantics.specs.Moving.{IsTheOne, IsLeast};
ghost use Rattle.pool_semantics.specs.PlainOf.{configuration_of, program_tree, is_spent};
ghost use Rattle.pool_semantics.specs.Plains.{configuration};
ghost use Rattle.pool_semantics.specs.SearchQueries.{call_of, called, WaitsFrom};

use crate::plain::Plain;
use crate::plain::moving::lesser;
use crate::plain::state::State;
use object_acts::act::Act;
use run_types::NameId;

/// An object that is at a call or in one, with the receiver and the method of the call.
#[derive(Clone, Copy)]
pub struct Waiting {
    pub object: u32,
    pub receiver: u32,
    pub method: NameId,
}

/// The receiver and the method of the call, if the action is a call or the wait of one.
fn call_of(act: &Act<'_>) -> Option<(u32, NameId)>
    ensures { (x : Object) (vs : List Value) (ns : List Named) (cs : List Choice) → called result ≡ call_of (acted x vs ns cs act.now) }
{
    match *act {
        Act::Send { to, method } => Some((to, method)),
        Act::Waits { on, method } => Some((on, method)),
        _ => None,
    }
}

/// Whether an object with this next action is left over at an end.
fn stays(act: &Act<'_>) -> bool
    ensures { (x : Object) (vs : List Value) (ns : List Named) (cs : List Choice) → result ≡ is_left_over (acted x vs ns cs act.now) }
{
    match act {
        Act::Send { .. } | Act::Waits { .. } | Act::Answer | Act::Select => true,
        _ => false,
    }
}

impl<'a> State<'a> {
    /// The object, if its name is at least `from` and it is at a call or in one.
    fn waits_from(&self, object: u32, from: u32) -> Option<u32>
        ensures { IsTheOne (WaitsFrom (program_of self.now.program.now) (configuration self.now) from object) result }
    {
        if object < from {
            return None;
        }
        match self.acting(object) {
            None => None,
            Some((_, act)) => call_of(&act).is_some().then_some(object),
        }
    }

    /// The least object with a name of at least `from` that is at a call or in one.
    fn least_waiting(&self, from: u32) -> Option<u32>
        ensures { IsLeast (λ b. (o : ℕ) × WaitsFrom (program_of self.now.program.now) (configuration self.now) from o b) result }
    {
        let mut least = None;
        for (object, _thing) in &self.objects {
            least = lesser(least, self.waits_from(*object, from));
        }
        least
    }

    /// Whether the object of this name is left over.
    fn stays_at(&self, object: u32) -> bool
        ensures some { result ≡ true → StaysAt (program_of self.now.program.now) (configuration self.now) object }
        ensures none { result ≡ false → ¬ (StaysAt (program_of self.now.program.now) (configuration self.now) object) }
    {
        match self.acting(object) {
            None => false,
            Some((_, act)) => stays(&act),
        }
    }

    /// Whether an object is left over.
    fn any_stays(&self) -> bool
        ensures some { result ≡ true → (o : ℕ) × StaysAt (program_of self.now.program.now) (configuration self.now) o }
        ensures none { result ≡ false → (o : ℕ) → ¬ (StaysAt (program_of self.now.program.now) (configuration self.now) o) }
    {
        for (object, _thing) in &self.objects {
            if self.stays_at(*object) {
                return true;
            }
        }
        false
    }
}

impl<'a> Plain<'a> {
    /// The least object with a name of at least `from` that has met no error and is at a call or in one.
    pub fn waiting(&self, from: u32) -> Option<Waiting>
        ensures waits { IfSome result (λ w. WaitsAt (program_tree self.now) (configuration_of self.now) w.object) }
        ensures call { IfSome result
            (λ w. (x : Object) → object_of (configuration_of self.now) w.object ≡ Some x → call_of (action (program_tree self.now) w.object x) ≡ Some (w.receiver, w.method.0)) }
        ensures least { IfSome result (λ w. (from ≤ w.object) × ((o : ℕ) → from ≤ o → WaitsAt (program_tree self.now) (configuration_of self.now) o → w.object ≤ o)) }
        ensures none { IfNone result ((o : ℕ) → from ≤ o → ¬ (WaitsAt (program_tree self.now) (configuration_of self.now) o)) }
    {
        let Some(object) = self.state.least_waiting(from) else {
            return None;
        };
        let Some((_, act)) = self.state.acting(object) else {
            return None;
        };
        let Some((receiver, method)) = call_of(&act) else {
            return None;
        };
        Some(Waiting {
            object,
            receiver,
            method,
        })
    }

    /// The least object that has met a run-time error. None exactly if no object has.
    pub fn met_error(&self) -> Option<u32>
        ensures some { IfSome result (λ o. (x : Object) × (object_of (configuration_of self.now) o ≡ Some x) × (x.fault ≢ None)) }
        ensures none { IfNone result (¬ (IsFaulty (configuration_of self.now))) }
    {
        for (object, thing) in &self.state.objects {
            if thing.fault.is_some() {
                return Some(*object);
            }
        }
        None
    }

    /// Whether an object without an error is at a call, a wait, an `answer` or a `select`, or a message was not taken.
    pub fn left_over(&self) -> bool
        requires { is_spent self.now ≡ false }
        ensures some { result ≡ true → HasLeftOver (program_tree self.now) (configuration_of self.now) }
        ensures none { result ≡ false → ¬ (HasLeftOver (program_tree self.now) (configuration_of self.now)) }
    {
        if self.state.any_stays() {
            return true;
        }
        !self.state.messages.is_empty()
    }
}
