//! Copies of objects. A copy shares the program text with its original.
ghost use Rattle.std.specs.Prelude.{◌≡◌, IfOk};
ghost use Rattle.stepper_objects.specs.ObjectStates.{thing_object};
ghost use Rattle.stepper_terms.specs.Parts.{caller_at, left, ready, segment, stopped, task, term_of};
ghost use Rattle.search_states.specs.Alike.{AlikeCall, AlikeCalls, AlikeOuter, AlikePlace, AlikePlaces, AlikeSlot};

use std::alloc::{AllocError, Global};
use stepper_objects::object_state::ObjectState;
use stepper_terms::contexts::{
    Activation, Continuation, ExpressionContext, Focus, Ready, Segment, StatementContext,
    SuspendedCall, Task,
};

fn copied_place<'a>(
    alloc: Global,
    place: &ExpressionContext<'a>,
) -> Result<ExpressionContext<'a>, AllocError>
    ensures { IfOk result (λ k. AlikePlace k place.now) }
{
    match *place {
        ExpressionContext::Prefix { op, pos } => Ok(ExpressionContext::Prefix { op, pos }),
        ExpressionContext::Left { op, right, pos } => Ok(ExpressionContext::Left {
            op,
            right,
            pos,
        }),
        ExpressionContext::Right { op, left, pos } => Ok(ExpressionContext::Right {
            op,
            left,
            pos,
        }),
        ExpressionContext::CallArgument {
            method,
            ref done,
            rest,
            pos,
        } => {
            let done = Vec::from_slice(alloc, done.as_slice())?;
            Ok(ExpressionContext::CallArgument {
                method,
                done,
                rest,
                pos,
            })
        }
        ExpressionContext::Destination { method, args, pos } => Ok(ExpressionContext::Destination {
            method,
            args,
            pos,
        }),
        ExpressionContext::SendArgument {
            to,
            method,
            ref done,
            rest,
            pos,
        } => {
            let done = Vec::from_slice(alloc, done.as_slice())?;
            Ok(ExpressionContext::SendArgument {
                to,
                method,
                done,
                rest,
                pos,
            })
        }
    }
}

fn copied_places<'a>(
    alloc: Global,
    places: &[ExpressionContext<'a>],
) -> Result<Vec<ExpressionContext<'a>>, AllocError>
    ensures { IfOk result (λ ks. AlikePlaces ks.items places.now) }
{
    let mut copied = Vec::new(alloc);
    for place in places {
        let Ok(one) = copied_place(alloc, place) else {
            return Err(AllocError);
        };
        copied.push(one)?;
    }
    Ok(copied)
}

fn copied_slot<'a>(
    alloc: Global,
    slot: &StatementContext<'a>,
) -> Result<StatementContext<'a>, AllocError>
    ensures { IfOk result (λ s. AlikeSlot s slot.now) }
{
    match *slot {
        StatementContext::Assign { target } => Ok(StatementContext::Assign { target }),
        StatementContext::Write => Ok(StatementContext::Write),
        StatementContext::Do => Ok(StatementContext::Do),
        StatementContext::Destination { method, args } => Ok(StatementContext::Destination {
            method,
            args,
        }),
        StatementContext::Argument {
            to,
            method,
            ref done,
            rest,
        } => {
            let done = Vec::from_slice(alloc, done.as_slice())?;
            Ok(StatementContext::Argument {
                to,
                method,
                done,
                rest,
            })
        }
        StatementContext::If { yes, no } => Ok(StatementContext::If { yes, no }),
        StatementContext::Loop { cond, body } => Ok(StatementContext::Loop { cond, body }),
        StatementContext::Guard { ref done, at, rest } => {
            let done = Vec::from_slice(alloc, done.as_slice())?;
            Ok(StatementContext::Guard { done, at, rest })
        }
        StatementContext::Value => Ok(StatementContext::Value),
    }
}

fn copied_ready(alloc: Global, redex: &Ready) -> Result<Ready, AllocError>
    ensures { IfOk result (λ r. ready r ≡ ready redex.now) }
{
    match *redex {
        Ready::Me { pos } => Ok(Ready::Me { pos }),
        Ready::Variable { name, pos } => Ok(Ready::Variable { name, pos }),
        Ready::Create { class, pos } => Ok(Ready::Create { class, pos }),
        Ready::Prefix { op, arg, pos } => Ok(Ready::Prefix { op, arg, pos }),
        Ready::Infix {
            op,
            left,
            right,
            pos,
        } => Ok(Ready::Infix {
            op,
            left,
            right,
            pos,
        }),
        Ready::Call {
            method,
            ref args,
            pos,
        } => {
            let args = Vec::from_slice(alloc, args.as_slice())?;
            Ok(Ready::Call { method, args, pos })
        }
        Ready::Send {
            to,
            method,
            ref args,
            pos,
        } => {
            let args = Vec::from_slice(alloc, args.as_slice())?;
            Ok(Ready::Send {
                to,
                method,
                args,
                pos,
            })
        }
        Ready::Wait { receiver, method } => Ok(Ready::Wait { receiver, method }),
    }
}

fn copied_task<'a>(alloc: Global, redex: &Task<'a>) -> Result<Task<'a>, AllocError>
    ensures { IfOk result (λ k. task k ≡ task redex.now) }
{
    match *redex {
        Task::Assign { target, value } => Ok(Task::Assign { target, value }),
        Task::Write { value } => Ok(Task::Write { value }),
        Task::WriteText { text } => Ok(Task::WriteText { text }),
        Task::Do { value } => Ok(Task::Do { value }),
        Task::Async {
            to,
            method,
            ref args,
        } => {
            let args = Vec::from_slice(alloc, args.as_slice())?;
            Ok(Task::Async { to, method, args })
        }
        Task::If { cond, yes, no } => Ok(Task::If { cond, yes, no }),
        Task::Loop { value, cond, body } => Ok(Task::Loop { value, cond, body }),
        Task::While { cond, body } => Ok(Task::While { cond, body }),
        Task::Answer { names } => Ok(Task::Answer { names }),
        Task::Select { ref guards } => {
            let guards = Vec::from_slice(alloc, guards.as_slice())?;
            Ok(Task::Select { guards })
        }
    }
}

fn copied_segment<'a>(part: &Segment<'a>) -> Segment<'a>
    ensures { segment result ≡ segment part.now }
{
    match *part {
        Segment::Rest(statements) => Segment::Rest(statements),
        Segment::Again { cond, body } => Segment::Again { cond, body },
    }
}

fn copied_rest<'a>(alloc: Global, rest: &[Segment<'a>]) -> Result<Vec<Segment<'a>>, AllocError>
    ensures { IfOk result (λ gs. left gs.items ≡ left rest.now) }
{
    let mut copied = Vec::new(alloc);
    for part in rest {
        copied.push(copied_segment(part))?;
    }
    Ok(copied)
}

fn copied_next<'a>(alloc: Global, next: &Focus<'a>) -> Result<Focus<'a>, AllocError>
    ensures { IfOk result (λ n. stopped n ≡ stopped next.now) }
{
    match next {
        Focus::Expression {
            redex,
            places,
            slot,
            rest,
        } => {
            let Ok(rest) = copied_rest(alloc, rest.as_slice()) else {
                return Err(AllocError);
            };
            let Ok(places) = copied_places(alloc, places.as_slice()) else {
                return Err(AllocError);
            };
            let Ok(redex) = copied_ready(alloc, redex) else {
                return Err(AllocError);
            };
            let Ok(slot) = copied_slot(alloc, slot) else {
                drop(redex);
                return Err(AllocError);
            };
            Ok(Focus::Expression {
                redex,
                places,
                slot,
                rest,
            })
        }
        Focus::Statement { task, rest } => {
            let Ok(rest) = copied_rest(alloc, rest.as_slice()) else {
                return Err(AllocError);
            };
            let Ok(task) = copied_task(alloc, task) else {
                return Err(AllocError);
            };
            Ok(Focus::Statement { task, rest })
        }
        Focus::Value { value } => Ok(Focus::Value { value: *value }),
        Focus::Over => Ok(Focus::Over),
    }
}

fn copied_outer<'a>(
    alloc: Global,
    outer: &SuspendedCall<'a>,
) -> Result<SuspendedCall<'a>, AllocError>
    ensures outer { IfOk result (λ o. AlikeOuter o outer.now) }
    ensures caller { IfOk result (λ o. caller_at o ≡ caller_at outer.now) }
{
    match outer {
        SuspendedCall::Expression { places, slot, rest } => {
            let Ok(rest) = copied_rest(alloc, rest.as_slice()) else {
                return Err(AllocError);
            };
            let Ok(places) = copied_places(alloc, places.as_slice()) else {
                return Err(AllocError);
            };
            let Ok(slot) = copied_slot(alloc, slot) else {
                return Err(AllocError);
            };
            Ok(SuspendedCall::Expression { places, slot, rest })
        }
        SuspendedCall::Statement { caller, rest } => {
            let Ok(rest) = copied_rest(alloc, rest.as_slice()) else {
                return Err(AllocError);
            };
            Ok(SuspendedCall::Statement {
                caller: *caller,
                rest,
            })
        }
    }
}

fn copied_call<'a>(alloc: Global, call: &Activation<'a>) -> Result<Activation<'a>, AllocError>
    ensures { IfOk result (λ a. AlikeCall a call.now) }
{
    let Ok(temps) = Vec::from_slice(alloc, call.temps.as_slice()) else {
        return Err(AllocError);
    };
    let Ok(outer) = copied_outer(alloc, &call.outer) else {
        return Err(AllocError);
    };
    Ok(Activation {
        outer,
        method: call.method,
        temps,
        stage: call.stage,
    })
}

fn copied_calls<'a>(
    alloc: Global,
    calls: &[Activation<'a>],
) -> Result<Vec<Activation<'a>>, AllocError>
    ensures { IfOk result (λ xs. AlikeCalls xs.items calls.now) }
{
    let mut copied = Vec::new(alloc);
    for call in calls {
        let Ok(one) = copied_call(alloc, call) else {
            return Err(AllocError);
        };
        copied.push(one)?;
    }
    Ok(copied)
}

fn copied_work<'a>(alloc: Global, work: &Continuation<'a>) -> Result<Continuation<'a>, AllocError>
    ensures { IfOk result (λ w. term_of w ≡ term_of work.now) }
{
    let Ok(calls) = copied_calls(alloc, work.calls.as_slice()) else {
        return Err(AllocError);
    };
    let Ok(next) = copied_next(alloc, &work.next) else {
        return Err(AllocError);
    };
    Ok(Continuation { calls, next })
}

/// Returns a copy of an object. An error means out of memory.
pub fn copy<'a>(alloc: Global, thing: &ObjectState<'a>) -> Result<ObjectState<'a>, AllocError>
    ensures { IfOk result (λ t. thing_object t ≡ thing_object thing.now) }
{
    let Ok(vars) = Vec::from_slice(alloc, thing.vars.as_slice()) else {
        return Err(AllocError);
    };
    let Ok(work) = copied_work(alloc, &thing.work) else {
        return Err(AllocError);
    };
    Ok(ObjectState {
        class: thing.class,
        vars,
        work,
        fault: thing.fault,
    })
}
