//! The next action of an object, in the form that callers of the stepper get.
ghost use Rattle.std.specs.Prelude.{◌≡◌, IfSome, IfNone, true, false};
ghost use Rattle.stepper_terms.specs.Reduced.{values};
ghost use Rattle.stepper_terms.specs.Arguments.{now_args, now_names, now_choices};
ghost use Rattle.pool_relation.specs.Action.{Object};
ghost use Rattle.object_acts.specs.Acts.{acted};
ghost use Rattle.pool_semantics.specs.Shown.{are_at_most_eight, shown};

use object_acts::act::Act;
use run_types::{Args, Redex};
use stepper_terms::contexts::{Continuation, Focus, Operand, Ready, Task};

/// The values of these operands. None if they are more than 8.
#[tactic(auto, using(stepper_terms::proofs::Laws::length_values))]
fn args_of(operands: &[Operand]) -> Option<Args>
    ensures some { IfSome result (λ a. a ≡ values operands.now) }
    ensures bounded { IfSome result (λ _. are_at_most_eight (values operands.now) ≡ true) }
    ensures many { IfNone result (are_at_most_eight (values operands.now) ≡ false) }
{
    if operands.len() > 8 {
        return None;
    }
    let mut args = Args::make();
    let mut rest = operands;
    while let Some((first, others)) = rest.split_first() {
        args.add(first.value);
        rest = others;
    }
    Some(args)
}

/// The arguments of the redex. None if they are more than 8.
pub fn redex_args(work: &Continuation<'_>) -> Option<Args>
    ensures some { IfSome result (λ a. a ≡ now_args work.now.next) }
    ensures bounded { IfSome result (λ _. are_at_most_eight (now_args work.now.next) ≡ true) }
    ensures many { IfNone result (are_at_most_eight (now_args work.now.next) ≡ false) }
{
    match &work.next {
        Focus::Expression { redex, .. } => match redex {
            Ready::Call { args, .. } => args_of(args.as_slice()),
            Ready::Send { args, .. } => args_of(args.as_slice()),
            _ => args_of(&[]),
        },
        Focus::Statement { task, .. } => match task {
            Task::Async { args, .. } => args_of(args.as_slice()),
            _ => args_of(&[]),
        },
        _ => args_of(&[]),
    }
}

/// The form of this action for callers. None if the object is stuck, or if it has more than 8 arguments for another
/// object.
pub fn show(work: &Continuation<'_>, act: &Act<'_>) -> Option<Redex>
    ensures { (x : Object) → result ≡ shown (acted x (now_args work.now.next) (now_names work.now.next) (now_choices work.now.next) act.now) }
{
    match *act {
        Act::Finished => Some(Redex::Finished),
        Act::Local(_) => Some(Redex::Local),
        Act::Fault(error) => Some(Redex::Fault { error }),
        Act::New(class) => Some(Redex::New { class }),
        Act::Send { to, method } => match redex_args(work) {
            None => None,
            Some(args) => Some(Redex::Send { to, method, args }),
        },
        Act::Async { to, method } => match redex_args(work) {
            None => None,
            Some(args) => Some(Redex::Async { to, method, args }),
        },
        Act::Write(item) => Some(Redex::Write { item }),
        Act::Answer => Some(Redex::Answer),
        Act::Select => Some(Redex::Select),
        Act::Return { value, .. } => Some(Redex::Return { value }),
        Act::Waits { on, .. } => Some(Redex::Waits { on }),
        Act::Stuck => None,
    }
}
