//! Equality of two works: the activations of methods, and the focus.
ghost use Rattle.std.specs.Prelude.{◌≡◌, true};
ghost use Rattle.stepper_terms.specs.Parts.{stopped, term_of};
ghost use Rattle.search_states.specs.Alike.{AlikeCall, AlikeCalls, AlikeOuter, AlikeStage};
ghost use Rattle.search_states.specs.Equal.{EqualCall, EqualNow, EqualOuter, EqualStage, EqualWork, Paired};

use crate::contexts::{same_operand, same_places, same_ready, same_rest, same_slot, same_task};
use crate::expressions::same_expression;
use crate::statements::same_statements;
use operators::same as same_value;
use stepper_terms::contexts::{Activation, Binding, Continuation, Focus, Stage, SuspendedCall};

#[tactic(auto, using(run_types::proofs::Laws::same_value, run_types::proofs::Laws::value_itself))]
fn same_binding(left: Binding, right: Binding) -> bool
    ensures same { result ≡ true → left ≡ right }
    ensures different { left ≡ right → result ≡ true }
{
    left.0 == right.0 && same_value(left.1, right.1)
}

pub fn same_bindings(left: &[Binding], right: &[Binding]) -> bool
    ensures same { result ≡ true → left.now ≡ right.now }
    ensures different { left.now ≡ right.now → result ≡ true }
{
    if left.len() != right.len() {
        return false;
    }
    for (i, binding) in left.iter().enumerate() {
        if !same_binding(*binding, right[i]) {
            return false;
        }
    }
    true
}

fn same_next(next: &Focus<'_>, other: &Focus<'_>) -> bool
    ensures same { result ≡ true → stopped next.now ≡ stopped other.now }
    ensures different { EqualNow next.now other.now → result ≡ true }
{
    match (next, other) {
        (
            Focus::Expression {
                redex,
                places,
                slot,
                rest,
            },
            Focus::Expression {
                redex: d,
                places: p,
                slot: s,
                rest: r,
            },
        ) => {
            same_ready(redex, d)
                && same_places(places.as_slice(), p.as_slice())
                && same_slot(slot, s)
                && same_rest(rest.as_slice(), r.as_slice())
        }
        (Focus::Statement { task, rest }, Focus::Statement { task: t, rest: r }) => {
            same_task(task, t) && same_rest(rest.as_slice(), r.as_slice())
        }
        (Focus::Value { value }, Focus::Value { value: v }) => same_operand(*value, *v),
        (Focus::Over, Focus::Over) => true,
        _ => false,
    }
}

fn same_caller(left: Option<u32>, right: Option<u32>) -> bool
    ensures same { result ≡ true → left ≡ right }
    ensures different { left ≡ right → result ≡ true }
{
    match (left, right) {
        (Some(name), Some(other)) => name == other,
        (None, None) => true,
        _ => false,
    }
}

// The stored caller is not compared. `same_call` compares the callers that the methods serve.
fn same_outer(outer: &SuspendedCall<'_>, other: &SuspendedCall<'_>) -> bool
    ensures same { result ≡ true → AlikeOuter outer.now other.now }
    ensures different { EqualOuter outer.now other.now → result ≡ true }
{
    match (outer, other) {
        (
            SuspendedCall::Expression { places, slot, rest },
            SuspendedCall::Expression {
                places: p,
                slot: s,
                rest: r,
            },
        ) => {
            same_places(places.as_slice(), p.as_slice())
                && same_slot(slot, s)
                && same_rest(rest.as_slice(), r.as_slice())
        }
        (SuspendedCall::Statement { rest, .. }, SuspendedCall::Statement { rest: r, .. }) => {
            same_rest(rest.as_slice(), r.as_slice())
        }
        _ => false,
    }
}

fn same_stage(stage: &Stage<'_>, other: &Stage<'_>) -> bool
    ensures same { result ≡ true → AlikeStage stage.now other.now }
    ensures different { EqualStage stage.now other.now → result ≡ true }
{
    match (stage, other) {
        (Stage::Body { value, post }, Stage::Body { value: v, post: p }) => {
            same_expression(value, v) && same_statements(post, p)
        }
        (Stage::Post { value }, Stage::Post { value: v }) => same_operand(*value, *v),
        _ => false,
    }
}

fn same_call(call: &Activation<'_>, other: &Activation<'_>) -> bool
    ensures same { result ≡ true → AlikeCall call.now other.now }
    ensures different { EqualCall call.now other.now → result ≡ true }
{
    call.method.0 == other.method.0
        && same_caller(call.caller(), other.caller())
        && same_bindings(call.temps.as_slice(), other.temps.as_slice())
        && same_stage(&call.stage, &other.stage)
        && same_outer(&call.outer, &other.outer)
}

fn same_calls(left: &[Activation<'_>], right: &[Activation<'_>]) -> bool
    ensures same { result ≡ true → AlikeCalls left.now right.now }
    ensures different { Paired EqualCall left.now right.now → result ≡ true }
{
    if left.len() != right.len() {
        return false;
    }
    for (i, call) in left.iter().enumerate() {
        if !same_call(call, &right[i]) {
            return false;
        }
    }
    true
}

/// Whether two works are the same.
pub fn same_work(work: &Continuation<'_>, other: &Continuation<'_>) -> bool
    ensures same { result ≡ true → term_of work.now ≡ term_of other.now }
    ensures different { EqualWork work.now other.now → result ≡ true }
{
    same_next(&work.next, &other.next) && same_calls(work.calls.as_slice(), other.calls.as_slice())
}
