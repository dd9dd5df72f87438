//! Equality of the parts of a work.
ghost use Rattle.std.specs.Prelude.{◌≡◌, [], ◌∷◌, true};
ghost use Rattle.stepper_terms.specs.Parts.{left, ready, segment, task};
ghost use Rattle.search_states.specs.Alike.{AlikeGuards, AlikePlace, AlikePlaces, AlikeSlot};
ghost use Rattle.search_states.specs.Equal.{EqualGuard, EqualPlace, EqualReady, EqualSegment, EqualSlot, EqualTask, Paired};

use crate::expressions::{same_expression, same_expressions, same_operator};
use crate::names::{same_answer, same_named, same_names};
use crate::statements::{same_alternatives, same_statements};
use operators::same as same_value;
use stepper_terms::contexts::{
    ExpressionContext, Guarded, Operand, Ready, Segment, StatementContext, Task,
};

#[tactic(auto, using(run_types::proofs::Laws::same_value, run_types::proofs::Laws::value_itself))]
pub fn same_operand(left: Operand, right: Operand) -> bool
    ensures same { result ≡ true → left ≡ right }
    ensures different { left ≡ right → result ≡ true }
{
    same_value(left.value, right.value) && left.pos == right.pos
}

pub fn same_operands(left: &[Operand], right: &[Operand]) -> bool
    ensures same { result ≡ true → left.now ≡ right.now }
    ensures different { left.now ≡ right.now → result ≡ true }
{
    if left.len() != right.len() {
        return false;
    }
    for (i, operand) in left.iter().enumerate() {
        if !same_operand(*operand, right[i]) {
            return false;
        }
    }
    true
}

fn same_guard(left: &Guarded<'_>, right: &Guarded<'_>) -> bool
    ensures same { result ≡ true → AlikeGuards (left.now ∷ []) (right.now ∷ []) }
    ensures different { EqualGuard left.now right.now → result ≡ true }
{
    same_operand(left.guard, right.guard)
        && same_answer(&left.alt.answer, &right.alt.answer)
        && same_statements(left.alt.work.items(), right.alt.work.items())
}

fn same_guards(left: &[Guarded<'_>], right: &[Guarded<'_>]) -> bool
    ensures same { result ≡ true → AlikeGuards left.now right.now }
    ensures different { Paired EqualGuard left.now right.now → result ≡ true }
{
    if left.len() != right.len() {
        return false;
    }
    for (i, guarded) in left.iter().enumerate() {
        if !same_guard(guarded, &right[i]) {
            return false;
        }
    }
    true
}

fn same_place(place: &ExpressionContext<'_>, other: &ExpressionContext<'_>) -> bool
    ensures same { result ≡ true → AlikePlace place.now other.now }
    ensures different { EqualPlace place.now other.now → result ≡ true }
{
    match (place, other) {
        (&ExpressionContext::Prefix { op, pos }, &ExpressionContext::Prefix { op: o, pos: p }) => {
            same_operator(op, o) && pos == p
        }
        (
            &ExpressionContext::Left { op, right, pos },
            &ExpressionContext::Left {
                op: o,
                right: r,
                pos: p,
            },
        ) => { same_operator(op, o) && pos == p && same_expression(right, r) }
        (
            &ExpressionContext::Right { op, left, pos },
            &ExpressionContext::Right {
                op: o,
                left: l,
                pos: p,
            },
        ) => { same_operator(op, o) && pos == p && same_operand(left, l) }
        (
            &ExpressionContext::Destination { method, args, pos },
            &ExpressionContext::Destination {
                method: m,
                args: a,
                pos: p,
            },
        ) => { method.0 == m.0 && pos == p && same_expressions(args, a) }
        (
            &ExpressionContext::CallArgument {
                method,
                ref done,
                rest,
                pos,
            },
            &ExpressionContext::CallArgument {
                method: m,
                done: ref d,
                rest: r,
                pos: p,
            },
        ) => { method.0 == m.0 && pos == p && same_operands(done, d) && same_expressions(rest, r) }
        (
            &ExpressionContext::SendArgument {
                to,
                method,
                ref done,
                rest,
                pos,
            },
            &ExpressionContext::SendArgument {
                to: t,
                method: m,
                done: ref d,
                rest: r,
                pos: p,
            },
        ) => {
            method.0 == m.0
                && pos == p
                && same_operand(to, t)
                && same_operands(done, d)
                && same_expressions(rest, r)
        }
        _ => false,
    }
}

pub fn same_places(left: &[ExpressionContext<'_>], right: &[ExpressionContext<'_>]) -> bool
    ensures same { result ≡ true → AlikePlaces left.now right.now }
    ensures different { Paired EqualPlace left.now right.now → result ≡ true }
{
    if left.len() != right.len() {
        return false;
    }
    for (i, place) in left.iter().enumerate() {
        if !same_place(place, &right[i]) {
            return false;
        }
    }
    true
}

pub fn same_slot(slot: &StatementContext<'_>, other: &StatementContext<'_>) -> bool
    ensures same { result ≡ true → AlikeSlot slot.now other.now }
    ensures different { EqualSlot slot.now other.now → result ≡ true }
{
    match (slot, other) {
        (&StatementContext::Assign { target }, &StatementContext::Assign { target: t }) => {
            same_named(target, t)
        }
        (&StatementContext::Write, &StatementContext::Write) => true,
        (&StatementContext::Do, &StatementContext::Do) => true,
        (
            &StatementContext::Destination { method, args },
            &StatementContext::Destination { method: m, args: a },
        ) => { same_named(method, m) && same_expressions(args, a) }
        (&StatementContext::If { yes, no }, &StatementContext::If { yes: y, no: n }) => {
            same_statements(yes, y) && same_statements(no, n)
        }
        (&StatementContext::Loop { cond, body }, &StatementContext::Loop { cond: c, body: b }) => {
            same_expression(cond, c) && same_statements(body, b)
        }
        (&StatementContext::Value, &StatementContext::Value) => true,
        (
            &StatementContext::Argument {
                to,
                method,
                ref done,
                rest,
            },
            &StatementContext::Argument {
                to: t,
                method: m,
                done: ref d,
                rest: r,
            },
        ) => {
            same_named(method, m)
                && same_operand(to, t)
                && same_operands(done, d)
                && same_expressions(rest, r)
        }
        (
            &StatementContext::Guard { ref done, at, rest },
            &StatementContext::Guard {
                done: ref d,
                at: a,
                rest: r,
            },
        ) => {
            same_guards(done, d)
                && same_answer(&at.answer, &a.answer)
                && same_statements(at.work.items(), a.work.items())
                && same_alternatives(rest, r)
        }
        _ => false,
    }
}

pub fn same_ready(redex: &Ready, other: &Ready) -> bool
    ensures same { result ≡ true → ready redex.now ≡ ready other.now }
    ensures different { EqualReady redex.now other.now → result ≡ true }
{
    match (redex, other) {
        (&Ready::Me { pos }, &Ready::Me { pos: p }) => pos == p,
        (&Ready::Variable { name, pos }, &Ready::Variable { name: n, pos: p }) => {
            name.0 == n.0 && pos == p
        }
        (&Ready::Create { class, pos }, &Ready::Create { class: c, pos: p }) => {
            class.0 == c.0 && pos == p
        }
        (
            &Ready::Prefix { op, arg, pos },
            &Ready::Prefix {
                op: o,
                arg: a,
                pos: p,
            },
        ) => { same_operator(op, o) && pos == p && same_operand(arg, a) }
        (
            &Ready::Infix {
                op,
                left,
                right,
                pos,
            },
            &Ready::Infix {
                op: o,
                left: l,
                right: r,
                pos: p,
            },
        ) => { same_operator(op, o) && pos == p && same_operand(left, l) && same_operand(right, r) }
        (
            &Ready::Call {
                method,
                ref args,
                pos,
            },
            &Ready::Call {
                method: m,
                args: ref a,
                pos: p,
            },
        ) => { method.0 == m.0 && pos == p && same_operands(args, a) }
        (
            &Ready::Send {
                to,
                method,
                ref args,
                pos,
            },
            &Ready::Send {
                to: t,
                method: m,
                args: ref a,
                pos: p,
            },
        ) => { method.0 == m.0 && pos == p && same_operand(to, t) && same_operands(args, a) }
        (
            &Ready::Wait { receiver, method },
            &Ready::Wait {
                receiver: r,
                method: m,
            },
        ) => { receiver == r && method.0 == m.0 }
        _ => false,
    }
}

pub fn same_task(redex: &Task<'_>, other: &Task<'_>) -> bool
    ensures same { result ≡ true → task redex.now ≡ task other.now }
    ensures different { EqualTask redex.now other.now → result ≡ true }
{
    match (redex, other) {
        (
            &Task::Assign { target, value },
            &Task::Assign {
                target: t,
                value: v,
            },
        ) => { same_named(target, t) && same_operand(value, v) }
        (&Task::Write { value }, &Task::Write { value: v }) => same_operand(value, v),
        (&Task::WriteText { text }, &Task::WriteText { text: t }) => text.0 == t.0,
        (&Task::Do { value }, &Task::Do { value: v }) => same_operand(value, v),
        (
            &Task::Async {
                to,
                method,
                ref args,
            },
            &Task::Async {
                to: t,
                method: m,
                args: ref a,
            },
        ) => { same_named(method, m) && same_operand(to, t) && same_operands(args, a) }
        (&Task::Answer { names }, &Task::Answer { names: n }) => same_names(names, n),
        (&Task::Select { ref guards }, &Task::Select { guards: ref g }) => {
            same_guards(guards, g)
        }
        (
            &Task::If { cond, yes, no },
            &Task::If {
                cond: c,
                yes: y,
                no: n,
            },
        ) => { same_operand(cond, c) && same_statements(yes, y) && same_statements(no, n) }
        (
            &Task::Loop { value, cond, body },
            &Task::Loop {
                value: v,
                cond: c,
                body: b,
            },
        ) => { same_operand(value, v) && same_expression(cond, c) && same_statements(body, b) }
        (&Task::While { cond, body }, &Task::While { cond: c, body: b }) => {
            same_expression(cond, c) && same_statements(body, b)
        }
        _ => false,
    }
}

fn same_segment(part: &Segment<'_>, other: &Segment<'_>) -> bool
    ensures same { result ≡ true → segment part.now ≡ segment other.now }
    ensures different { EqualSegment part.now other.now → result ≡ true }
{
    match (part, other) {
        (Segment::Rest(statements), Segment::Rest(s)) => same_statements(statements, s),
        (Segment::Again { cond, body }, Segment::Again { cond: c, body: b }) => {
            same_expression(cond, c) && same_statements(body, b)
        }
        _ => false,
    }
}

pub fn same_rest(rest: &[Segment<'_>], other: &[Segment<'_>]) -> bool
    ensures same { result ≡ true → left rest.now ≡ left other.now }
    ensures different { Paired EqualSegment rest.now other.now → result ≡ true }
{
    if rest.len() != other.len() {
        return false;
    }
    for (i, part) in rest.iter().enumerate() {
        if !same_segment(part, &other[i]) {
            return false;
        }
    }
    true
}
