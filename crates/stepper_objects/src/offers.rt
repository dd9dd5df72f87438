//! Offers of an object at an answer or a select.
ghost use Rattle.std.specs.Prelude.{◌≡◌, [], ◌∷◌, Option, Some, None};
ghost use Rattle.std.specs.List.{list_any};
ghost use Rattle.run_types.specs.Values.{is_true};
ghost use Rattle.pool_relation.specs.Action as A;
ghost use Rattle.pool_relation.specs.Ready.{is_open_plain};
ghost use Rattle.pool_relation.specs.Transition.{names_method, picked, plain_choice, select_offer};
ghost use Rattle.stepper_terms.specs.Reduced.{choice, choices};
ghost use Rattle.stepper_terms.specs.Arguments.{now_names, now_choices};
ghost use Rattle.stepper_objects.specs.Offers.{offered, work_seen, offer_act};

use object_acts::act::Act;
use pool_syntax::{Named, Stmt};
use run_types::Value;
use stepper_terms::contexts::{Continuation, Focus, Guarded, Task};

/// The methods that an object may serve next, and its statements after one of them.
#[derive(Clone, Copy)]
pub struct Offer<'a> {
    pub names: &'a [Named],
    pub after: &'a [Stmt],
}

/// Whether the list names the method.
pub fn names_method(names: &[Named], method: u32) -> bool
    ensures { result ≡ names_method names.now method }
{
    names.iter().any(|named| named.name.0 == method)
}

fn is_open(guarded: &Guarded<'_>) -> bool
    ensures { result ≡ is_true guarded.now.guard.value }
{
    matches!(guarded.guard.value, Value::Bool(true))
}

/// The offer of an alternative with an evaluated guard, if it is open and names the method.
fn offer_of<'a>(guarded: &Guarded<'a>, method: u32) -> Option<Offer<'a>>
    ensures { offered result ≡ select_offer (choice guarded.now ∷ []) method }
{
    let alt = guarded.alt;
    match &alt.answer {
        None => None,
        Some(names) => {
            if is_open(guarded) && names_method(names.items(), method) {
                Some(Offer {
                    names: names.items(),
                    after: alt.work.items(),
                })
            } else {
                None
            }
        }
    }
}

/// The offer of the first open alternative that names the method.
fn select_offer<'a>(guards: &[Guarded<'a>], method: u32) -> Option<Offer<'a>>
    ensures { offered result ≡ select_offer (choices guards.now) method }
{
    for guarded in guards {
        let offer = offer_of(guarded, method);
        if offer.is_some() {
            return offer;
        }
    }
    None
}

/// The work of an alternative with an evaluated guard, if it is open and plain.
fn plain_work<'a>(guarded: &Guarded<'a>) -> Option<&'a [Stmt]>
    ensures { work_seen result ≡ plain_choice (Some (choice guarded.now)) }
{
    let alt = guarded.alt;
    match &alt.answer {
        Some(_) => None,
        None => {
            if is_open(guarded) {
                Some(alt.work.items())
            } else {
                None
            }
        }
    }
}

/// The work of alternative `number`, counted from 1, if it is open and plain.
#[tactic(auto, using(crate::proofs::SelectAlternatives::picked_past, crate::proofs::SelectAlternatives::picked_at))]
fn numbered<'a>(guards: &[Guarded<'a>], number: u32) -> Option<&'a [Stmt]>
    ensures { work_seen result ≡ picked (A.Select (choices guards.now)) number }
{
    if number == 0 {
        return None;
    }
    let at = number as usize - 1;
    if at >= guards.len() {
        return None;
    }
    plain_work(&guards[at])
}

/// The work of alternative `alt` of the select that is the redex, counted from 1. None if it is not open and plain, or
/// if the redex is no select.
pub fn plain_alt<'a>(work: &Continuation<'a>, alt: u32) -> Option<&'a [Stmt]>
    ensures { work_seen result ≡ picked (A.Select (now_choices work.now.next)) alt }
{
    let Focus::Statement {
        task: Task::Select { guards },
        ..
    } = &work.next
    else {
        return None;
    };
    numbered(guards.as_slice(), alt)
}

/// Whether one of these alternatives is open and plain.
fn any_open_plain(guards: &[Guarded<'_>]) -> bool
    ensures { result ≡ list_any is_open_plain (choices guards.now) }
{
    for guarded in guards {
        if is_open(guarded) && guarded.alt.answer.is_none() {
            return true;
        }
    }
    false
}

/// Whether the redex is a select with an open and plain alternative.
pub fn has_open_plain(work: &Continuation<'_>) -> bool
    ensures { result ≡ list_any is_open_plain (now_choices work.now.next) }
{
    let Focus::Statement {
        task: Task::Select { guards },
        ..
    } = &work.next
    else {
        return false;
    };
    any_open_plain(guards.as_slice())
}

/// The offer of an object with this next action for the method. None if it does not offer the method.
pub fn offer_to<'a>(work: &Continuation<'a>, act: &Act<'_>, method: u32) -> Option<Offer<'a>>
    ensures { offered result ≡ offer_act act.now (now_names work.now.next) (now_choices work.now.next) method }
{
    match act {
        Act::Answer => match &work.next {
            Focus::Statement {
                task: Task::Answer { names },
                ..
            } => {
                if names_method(names, method) {
                    Some(Offer { names, after: &[] })
                } else {
                    None
                }
            }
            _ => None,
        },
        Act::Select => match &work.next {
            Focus::Statement {
                task: Task::Select { guards },
                ..
            } => select_offer(guards.as_slice(), method),
            _ => None,
        },
        _ => None,
    }
}
