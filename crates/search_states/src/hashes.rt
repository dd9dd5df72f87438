//! Hashes of object states, for look-ups. No proof depends on them.
use run_types::Value;
use std::hash::{FoldHasher, Hasher};
use stepper_objects::object_state::ObjectState;
use stepper_terms::contexts::{
    Activation, Binding, ExpressionContext, Focus, Guarded, Operand, Ready, Segment, Stage,
    StatementContext, SuspendedCall, Task,
};

fn mark_value(value: Value, state_hash: &mut FoldHasher) {
    match value {
        Value::Int(number) => state_hash.write_i64(number),
        Value::Bool(truth) => state_hash.write_u8(u8::from(truth)),
        Value::Ref(name) => state_hash.write_u32(name),
        Value::Nil => state_hash.write_u8(2),
    }
}

fn mark_bindings(bindings: &[Binding], state_hash: &mut FoldHasher) {
    for binding in bindings {
        state_hash.write_u32(binding.0);
        mark_value(binding.1, state_hash);
    }
}

fn mark_operand(operand: Operand, state_hash: &mut FoldHasher) {
    mark_value(operand.value, state_hash);
    state_hash.write_u32(operand.pos);
}

fn mark_operands(operands: &[Operand], state_hash: &mut FoldHasher) {
    for operand in operands {
        mark_operand(*operand, state_hash);
    }
}

fn mark_guards(guards: &[Guarded<'_>], state_hash: &mut FoldHasher) {
    for guarded in guards {
        mark_operand(guarded.guard, state_hash);
    }
}

fn mark_place(place: &ExpressionContext<'_>, state_hash: &mut FoldHasher) {
    match place {
        ExpressionContext::Prefix { pos, .. }
        | ExpressionContext::Left { pos, .. }
        | ExpressionContext::Destination { pos, .. } => {
            state_hash.write_u32(*pos);
        }
        ExpressionContext::Right { left, pos, .. } => {
            state_hash.write_u32(*pos);
            mark_operand(*left, state_hash);
        }
        ExpressionContext::CallArgument { done, pos, .. } => {
            state_hash.write_u32(*pos);
            mark_operands(done.as_slice(), state_hash);
        }
        ExpressionContext::SendArgument { to, done, pos, .. } => {
            state_hash.write_u32(*pos);
            mark_operand(*to, state_hash);
            mark_operands(done.as_slice(), state_hash);
        }
    }
}

fn mark_places(places: &[ExpressionContext<'_>], state_hash: &mut FoldHasher) {
    for place in places {
        mark_place(place, state_hash);
    }
}

fn mark_slot(slot: &StatementContext<'_>, state_hash: &mut FoldHasher) {
    match slot {
        StatementContext::Assign { target } => state_hash.write_u32(target.pos),
        StatementContext::Write => state_hash.write_u8(1),
        StatementContext::Do => state_hash.write_u8(2),
        StatementContext::Destination { method, .. } => state_hash.write_u32(method.pos),
        StatementContext::Argument {
            to,
            method,
            done,
            ..
        } => {
            state_hash.write_u32(method.pos);
            mark_operand(*to, state_hash);
            mark_operands(done.as_slice(), state_hash);
        }
        StatementContext::If { .. } => state_hash.write_u8(3),
        StatementContext::Loop { .. } => state_hash.write_u8(4),
        StatementContext::Guard { done, rest, .. } => {
            state_hash.write_usize(rest.len());
            mark_guards(done.as_slice(), state_hash);
        }
        StatementContext::Value => state_hash.write_u8(5),
    }
}

fn mark_ready(redex: &Ready, state_hash: &mut FoldHasher) {
    match redex {
        Ready::Me { pos } | Ready::Variable { pos, .. } | Ready::Create { pos, .. } => {
            state_hash.write_u32(*pos);
        }
        Ready::Prefix { arg, pos, .. } => {
            state_hash.write_u32(*pos);
            mark_operand(*arg, state_hash);
        }
        Ready::Infix {
            left,
            right,
            pos,
            ..
        } => {
            state_hash.write_u32(*pos);
            mark_operand(*left, state_hash);
            mark_operand(*right, state_hash);
        }
        Ready::Call { args, pos, .. } => {
            state_hash.write_u32(*pos);
            mark_operands(args.as_slice(), state_hash);
        }
        Ready::Send { to, args, pos, .. } => {
            state_hash.write_u32(*pos);
            mark_operand(*to, state_hash);
            mark_operands(args.as_slice(), state_hash);
        }
        Ready::Wait { receiver, method } => {
            state_hash.write_u32(*receiver);
            state_hash.write_u32(method.0);
        }
    }
}

fn mark_task(redex: &Task<'_>, state_hash: &mut FoldHasher) {
    match redex {
        Task::Assign { target, value } => {
            state_hash.write_u32(target.pos);
            mark_operand(*value, state_hash);
        }
        Task::Write { value } | Task::Do { value } => mark_operand(*value, state_hash),
        Task::WriteText { text } => state_hash.write_u32(text.0),
        Task::Async { to, method, args } => {
            state_hash.write_u32(method.pos);
            mark_operand(*to, state_hash);
            mark_operands(args.as_slice(), state_hash);
        }
        Task::If { cond, yes, no } => {
            mark_operand(*cond, state_hash);
            state_hash.write_usize(yes.len());
            state_hash.write_usize(no.len());
        }
        Task::Loop { value, body, .. } => {
            mark_operand(*value, state_hash);
            state_hash.write_usize(body.len());
        }
        Task::While { body, .. } => state_hash.write_usize(body.len()),
        Task::Answer { names } => {
            for named in names.iter() {
                state_hash.write_u32(named.pos);
            }
        }
        Task::Select { guards } => mark_guards(guards.as_slice(), state_hash),
    }
}

fn mark_rest(rest: &[Segment<'_>], state_hash: &mut FoldHasher) {
    for part in rest {
        match part {
            Segment::Rest(statements) => state_hash.write_usize(statements.len()),
            Segment::Again { body, .. } => state_hash.write_usize(body.len()),
        }
    }
}

fn mark_next(next: &Focus<'_>, state_hash: &mut FoldHasher) {
    match next {
        Focus::Expression {
            redex,
            places,
            slot,
            rest,
        } => {
            mark_ready(redex, state_hash);
            mark_places(places.as_slice(), state_hash);
            mark_slot(slot, state_hash);
            mark_rest(rest.as_slice(), state_hash);
        }
        Focus::Statement { task, rest } => {
            mark_task(task, state_hash);
            mark_rest(rest.as_slice(), state_hash);
        }
        Focus::Value { value } => mark_operand(*value, state_hash),
        Focus::Over => state_hash.write_u8(0),
    }
}

fn mark_outer(outer: &SuspendedCall<'_>, state_hash: &mut FoldHasher) {
    match outer {
        SuspendedCall::Expression { places, slot, rest } => {
            mark_places(places.as_slice(), state_hash);
            mark_slot(slot, state_hash);
            mark_rest(rest.as_slice(), state_hash);
        }
        SuspendedCall::Statement { rest, .. } => mark_rest(rest.as_slice(), state_hash),
    }
}

fn mark_call(call: &Activation<'_>, state_hash: &mut FoldHasher) {
    state_hash.write_u32(call.method.0);
    if let Some(name) = call.caller() {
        state_hash.write_u32(name);
    }
    mark_bindings(call.temps.as_slice(), state_hash);
    match call.stage {
        Stage::Body { post, .. } => state_hash.write_usize(post.len()),
        Stage::Post { value } => mark_operand(value, state_hash),
    }
    mark_outer(&call.outer, state_hash);
}

/// The hash of an object's state. States with equal parts have equal hashes.
pub fn state_hash(thing: &ObjectState<'_>) -> u64 {
    let mut state_hash = FoldHasher::default();
    state_hash.write_u32(thing.class);
    mark_bindings(thing.vars.as_slice(), &mut state_hash);
    for call in thing.work.calls.as_slice() {
        mark_call(call, &mut state_hash);
    }
    mark_next(&thing.work.next, &mut state_hash);
    if let Some(error) = thing.fault {
        state_hash.write_u8(error as u8);
    }
    state_hash.finish()
}
