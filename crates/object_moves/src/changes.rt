//! What an object becomes by its part in a transition.
ghost use Rattle.std.specs.Prelude.{◌≡◌, List, [], ℕ, None, Some, IfOk, IfSome, if◌then◌else◌};
ghost use Rattle.pool_syntax.specs.Terms.{ProgramTree};
ghost use Rattle.pool_syntax.specs.TreeOf.{program_of};
ghost use Rattle.run_types.specs.declared.types.Value.{Value as OneValue};
ghost use Rattle.stepper_objects.specs.ObjectStates.{thing_object};
ghost use Rattle.object_moves.specs.Changed.{IsActOf, IsChangeOf, IsMade, fails_act, makes_act, writes_act};
ghost use Rattle.object_moves.specs.Roles.{after, after_local};

use crate::equality::{same_error, same_item};
use crate::parts::{Part, Role};
use object_acts::act::Act;
use object_acts::arguments::has_args;
use object_acts::change::Change;
use object_acts::lookup::find_method;
use pool_syntax::Program;
use run_types::{Args, Error, Item, NameId, Value};
use search_states::SpinWatch;
use std::alloc::{AllocError, Global};
use stepper_objects::object_state::ObjectState;
use stepper_objects::offers::{offer_to, plain_alt};

/// The largest number of transitions that are followed one after another.
pub const MOST: u32 = 1_000_000;

/// The next action of an object, whether or not it has met an error.
fn act_of<'a>(program: &'a Program, object: u32, state: &ObjectState<'a>) -> Act<'a>
    ensures { IsActOf (program_of program.now) object state.now result }
{
    state.act(program, object)
}

/// The change of a local transition, whether or not the object has met an error.
fn local_change<'a>(
    program: &'a Program,
    object: u32,
    state: &ObjectState<'a>,
) -> Option<Change<'a>>
    ensures { (args : List OneValue) → IsChangeOf (program_of program.now) object Role.Goes args state.now result }
{
    match act_of(program, object, state) {
        Act::Local(change) => Some(change),
        _ => None,
    }
}

/// The end of a statement, if the test is true.
fn done_if<'a>(test: bool) -> Option<Change<'a>>
    ensures { result ≡ (if test then Some Change.Done else None) }
{
    if test { Some(Change::Done) } else { None }
}

/// The return of a value, if the test is true.
fn returned_if<'a>(test: bool) -> Option<Change<'a>>
    ensures { result ≡ (if test then Some Change.Returned else None) }
{
    if test { Some(Change::Returned) } else { None }
}

/// This value for an expression, if the test is true.
fn given_if<'a>(test: bool, value: Value) -> Option<Change<'a>>
    ensures { result ≡ (if test then Some (Change.Becomes value) else None) }
{
    if test {
        Some(Change::Becomes(value))
    } else {
        None
    }
}

/// The wait for this method of the receiver, if the test is true.
fn waiting_if<'a>(test: bool, receiver: u32, method: NameId) -> Option<Change<'a>>
    ensures { result ≡ (if test then Some (Change.Wait receiver method) else None) }
{
    if test {
        Some(Change::Wait { receiver, method })
    } else {
        None
    }
}

/// The error, if the test is true.
fn failed_if<'a>(test: bool, error: Error) -> Option<Change<'a>>
    ensures { result ≡ (if test then Some (Change.Fault error) else None) }
{
    if test {
        Some(Change::Fault(error))
    } else {
        None
    }
}

fn writes(act: &Act<'_>, item: Item) -> bool
    ensures { result ≡ writes_act act.now item }
{
    match *act {
        Act::Write(written) => same_item(written, item),
        _ => false,
    }
}

fn fails(act: &Act<'_>, error: Error) -> bool
    ensures { result ≡ fails_act act.now error }
{
    match *act {
        Act::Fault(met) => same_error(met, error),
        _ => false,
    }
}

fn makes(act: &Act<'_>, class: NameId) -> bool
    ensures { result ≡ makes_act act.now class.0 }
{
    match *act {
        Act::New(made) => made.0 == class.0,
        _ => false,
    }
}

/// The change by which an object picks this alternative.
fn pick_of<'a>(state: &ObjectState<'a>, act: &Act<'a>, alt: u32) -> Option<Change<'a>>
    ensures { (p : ProgramTree) (o : ℕ) → IsActOf p o state.now act.now → IsChangeOf p o (Role.Picks alt) [] state.now result }
{
    match *act {
        Act::Select => match plain_alt(&state.work, alt) {
            Some(work) => Some(Change::Branch(work)),
            None => None,
        },
        _ => None,
    }
}

/// The change by which an object begins to serve the method with these arguments.
fn serve_of<'a>(
    program: &'a Program,
    state: &ObjectState<'a>,
    act: &Act<'a>,
    method: NameId,
    caller: Option<u32>,
    args: Args,
) -> Option<Change<'a>>
    ensures { (o : ℕ) → IsActOf (program_of program.now) o state.now act.now → IsChangeOf (program_of program.now) o (Role.Serves method caller) args state.now result }
{
    let Some(offer) = offer_to(&state.work, act, method.0) else {
        return None;
    };
    let Some(found) = find_method(program, state.class, method.0, args.values().len()) else {
        return None;
    };
    Some(Change::Serve {
        method: found,
        caller,
        args,
        after: offer.after,
    })
}

/// The change of an object without error by its part in a transition. None if it has no such part.
fn change_of<'a>(
    program: &'a Program,
    object: u32,
    state: &ObjectState<'a>,
    part: &Part,
) -> Option<Change<'a>>
    ensures { IsChangeOf (program_of program.now) object part.now.role part.now.args state.now result }
{
    let act = act_of(program, object, state);
    let args = part.args;
    let same_args = has_args(&state.work, args.values());
    match part.role {
        Role::Goes => local_change(program, object, state),
        Role::Writes(item) => done_if(writes(&act, item)),
        Role::Picks(alt) => pick_of(state, &act, alt),
        Role::Fails(error) => failed_if(fails(&act, error), error),
        Role::Sends { receiver, method } => done_if(act.posts(receiver, method, same_args)),
        Role::Calls { receiver, method } => {
            waiting_if(act.calls(receiver, method, same_args), receiver, method)
        }
        Role::Serves { method, caller } => serve_of(program, state, &act, method, caller, args),
        Role::Returns { caller, value } => returned_if(act.returns(caller, value)),
        Role::Gets { receiver, value } => given_if(act.waits_for(receiver), value),
        Role::Makes { class, name } => given_if(makes(&act, class), Value::Ref(name)),
    }
}

/// Changes an object by its part in a transition. `false` if it has no such part; it is then the same. An error means
/// out of memory.
pub fn change_by<'a>(
    alloc: Global,
    program: &'a Program,
    object: u32,
    state: &mut ObjectState<'a>,
    part: &Part,
) -> Result<bool, AllocError>
    ensures { IfOk result (λ b. IsMade b (after (program_of program.now) object part.now (thing_object state.old)) (thing_object state.old) (thing_object state.new)) }
{
    if state.fault.is_some() {
        return Ok(false);
    }
    let Some(change) = change_of(program, object, state, part) else {
        return Ok(false);
    };
    state.change(alloc, &change)?;
    Ok(true)
}

/// Makes local transitions of an object until none is possible or it spins, and returns how many they were. None after
/// 1,000,000 of them. An error means out of memory.
pub fn run_local<'a>(
    alloc: Global,
    program: &'a Program,
    object: u32,
    state: &mut ObjectState<'a>,
) -> Result<Option<u32>, AllocError>
    ensures { IfOk result (λ o. IfSome o (λ k. after_local (program_of program.now) object k (thing_object state.old) ≡ Some (thing_object state.new))) }
{
    let goes = Part::bare(Role::Goes);
    let mut watch = SpinWatch::make(alloc);
    for made in 0..MOST {
        match change_by(alloc, program, object, state, &goes) {
            Ok(true) => {}
            Ok(false) => return Ok(Some(made)),
            Err(_) => return Err(AllocError),
        }
        match watch.stops(state) {
            Ok(true) => return Ok(Some(made + 1)),
            Ok(false) => {}
            Err(_) => return Err(AllocError),
        }
    }
    Ok(None)
}
