//! The least object that can make a transition.
ghost use Rattle.std.specs.Prelude.{◌≡◌, ℕ};
ghost use Rattle.pool_syntax.specs.TreeOf.{program_of};
ghost use Rattle.pool_relation.specs.Action.{Object};
ghost use Rattle.pool_relation.specs.Configuration.{messages_of};
ghost use Rattle.stepper_terms.specs.Arguments.{now_args, now_names, now_choices};
ghost use Rattle.object_acts.specs.Acts.{acted};
ghost use Rattle.pool_semantics.specs.Mails.{queued};
ghost use Rattle.pool_semantics.specs.Moving.{lesser, goes_alone, would_answer, MovesBy, Takes, IsTheOne, IsLeast};
ghost use Rattle.pool_semantics.specs.Plains.{configuration};

use crate::plain::mail::any_offered;
use crate::plain::state::State;
use message_queue::MessageQueue;
use object_acts::act::Act;
use run_types::NameId;
use stepper_objects::offers::{has_open_plain, offer_to};
use stepper_terms::contexts::Continuation;

/// The lesser of two names, or the only one.
pub fn lesser(left: Option<u32>, right: Option<u32>) -> Option<u32>
    ensures { result ≡ lesser left right }
{
    match left {
        None => right,
        Some(a) => match right {
            None => Some(a),
            Some(b) => Some(a.min(b)),
        },
    }
}

/// Whether an object with this next action can make a transition without a message and without a caller.
fn goes_alone(work: &Continuation<'_>, act: &Act<'_>) -> bool
    ensures { (x : Object) → result ≡ goes_alone (acted x (now_args work.now.next) (now_names work.now.next) (now_choices work.now.next) act.now) }
{
    match act {
        Act::Local(_)
        | Act::Fault(_)
        | Act::New(_)
        | Act::Async { .. }
        | Act::Write(_)
        | Act::Return { .. } => true,
        Act::Select => has_open_plain(work),
        Act::Finished | Act::Send { .. } | Act::Answer | Act::Waits { .. } | Act::Stuck => false,
    }
}

impl<'a> State<'a> {
    /// Whether the receiver answers a call of this method by the caller.
    fn would_answer(&self, caller: u32, receiver: u32, method: NameId) -> bool
        ensures { result ≡ would_answer (program_of self.now.program.now) (configuration self.now) caller receiver method.0 }
    {
        let Some((serving, act)) = self.acting(receiver) else {
            return false;
        };
        let Some(offer) = offer_to(&serving.work, &act, method.0) else {
            return false;
        };
        !self.barred(caller, receiver, offer.names)
    }

    /// The object that can make a transition by this object's next action: itself, or the object that answers its
    /// call.
    pub(crate) fn moved_by(&self, object: u32) -> Option<u32>
        ensures { IsTheOne (MovesBy (program_of self.now.program.now) (configuration self.now) object) result }
    {
        match self.acting(object) {
            None => None,
            Some((thing, act)) => match act {
                Act::Send { to, method } => self.would_answer(object, to, method).then_some(to),
                _ => goes_alone(&thing.work, &act).then_some(object),
            },
        }
    }

    /// The receiver, if it can take a message of the queue.
    pub(crate) fn taker(&self, receiver: u32, queue: &MessageQueue) -> Option<u32>
        ensures { IsTheOne (λ b. (b ≡ receiver) × Takes (program_of self.now.program.now) (configuration self.now) b (queued queue.now)) result }
    {
        match self.acting(receiver) {
            None => None,
            Some((serving, act)) => any_offered(queue, &serving.work, &act).then_some(receiver),
        }
    }

    /// The least object that can make a transition by some object's next action.
    pub fn least_by_objects(&self) -> Option<u32>
        ensures { IsLeast (λ b. (o : ℕ) × MovesBy (program_of self.now.program.now) (configuration self.now) o b) result }
    {
        let mut least = None;
        for (object, _thing) in &self.objects {
            least = lesser(least, self.moved_by(*object));
        }
        least
    }

    /// The least object that can take a message.
    pub fn least_by_messages(&self) -> Option<u32>
        ensures { IsLeast (λ b. (s : ℕ) × Takes (program_of self.now.program.now) (configuration self.now) b (messages_of (configuration self.now) s b)) result }
    {
        let mut least = None;
        for (pair, queue) in &self.messages {
            least = lesser(least, self.taker(pair.1, queue));
        }
        least
    }
}
