//! The next action of an object.
ghost use Rattle.std.specs.Prelude.{◌≡◌, [], ◌∷◌, Option, Some, None, IsTrue, ℕ, ◌-◌, List, length, slice_get, true, not};
ghost use Rattle.pool_syntax.specs.TreeOf.{program_of};
ghost use Rattle.pool_syntax.specs.Terms.{Statements, Store, ProgramTree};
ghost use Rattle.pool_relation.specs.Reducible.{Choice};
ghost use Rattle.pool_relation.specs.Action.{Object, action, redex_action, on_outcome, on_select, on_assignment};
ghost use Rattle.stepper_terms.specs.Parts.{term_of, task as statement};
ghost use Rattle.stepper_terms.specs.Reduced.{assigns, reduced, task_redex, last_redex, choices, temps_at};
ghost use Rattle.operators.specs.Operated.{outcome_of};
ghost use Rattle.object_acts.specs.Acts.{acted, object_with, Suits, returns_act, waits_act, calls_act, posts_act};
ghost use Rattle.stepper_terms.specs.Arguments.{ready_args, task_args, task_names, task_choices, now_args, now_names, now_choices};
ghost use Rattle.run_types.specs.declared.types.Value.{Value};
ghost use Rattle.pool_syntax.specs.declared.tree.Named.{Named};
ghost use Rattle.stepper_terms.specs.Changes.{is_expression, is_statement, is_end, keeps_temps, next_ready, next_assigns, assigning, end_value};
ghost use Rattle.stepper_terms.specs.declared.contexts.Activation.{Activation};
ghost use Rattle.stepper_terms.specs.declared.contexts.Focus.{Focus};

use crate::change::Change;
use crate::lookup::{find_class, find_method, value_of};
use operators::{Answer, operate, operate_one, same};
use pool_syntax::Program;
use run_types::{Error, Item, NameId, Value};
use stepper_terms::contexts::{
    Activation, Binding, Continuation, Focus, Guarded, Operand, Ready, SuspendedCall, Task,
};

/// The next action of an object. Its arguments, names and guards are those of the redex, and are not stored here.
#[derive(Clone, Copy)]
pub enum Act<'a> {
    Finished,
    Local(Change<'a>),
    Fault(Error),
    New(NameId),
    Send { to: u32, method: NameId },
    Async { to: u32, method: NameId },
    Write(Item),
    Answer,
    Select,
    Return { caller: u32, value: Value },
    Waits { on: u32, method: NameId },
    Stuck,
}

fn on_answer<'a>(answer: Answer) -> Act<'a>
    ensures gives { (x : Object) → on_outcome x (outcome_of answer) ≡ acted x [] [] [] result }
    ensures suits { (xs : List Activation) (n : Focus) → is_expression n ≡ true → Suits xs n result }
{
    match answer {
        Answer::Gives(value) => Act::Local(Change::Becomes(value)),
        Answer::Fails(error) => Act::Fault(error),
        Answer::WrongSort => Act::Stuck,
    }
}

/// The action at an expression that is the redex.
#[tactic(auto, using(stepper_terms::proofs::Laws::length_values))]
fn act_ready<'a>(
    program: &'a Program,
    name: u32,
    class: u32,
    temps: &[Binding],
    vars: &[Binding],
    redex: &Ready,
) -> Act<'a>
    ensures gives { (tm : Statements) (f : Option Error)
        → redex_action (program_of program.now) name (object_with class vars.now tm f) temps.now (reduced redex.now) ≡ acted (object_with class vars.now tm f) (ready_args redex.now) [] [] result }
    ensures suits { (xs : List Activation) (n : Focus) → is_expression n ≡ true → next_ready n ≡ Some redex.now → Suits xs n result }
{
    match redex {
        Ready::Me { .. } => Act::Local(Change::Becomes(Value::Ref(name))),
        Ready::Variable { name: variable, .. } => match value_of(temps, variable.0) {
            Some(value) => Act::Local(Change::Becomes(value)),
            None => match value_of(vars, variable.0) {
                Some(value) => Act::Local(Change::Becomes(value)),
                None => Act::Stuck,
            },
        },
        Ready::Create { class: made, .. } => match find_class(program, made.0) {
            Some(_) => Act::New(*made),
            None => Act::Stuck,
        },
        Ready::Prefix { op, arg, .. } => on_answer(operate_one(*op, arg.value)),
        Ready::Infix {
            op,
            left,
            right,
            ..
        } => on_answer(operate(*op, left.value, right.value)),
        Ready::Call { method, args, .. } => match find_method(
            program,
            class,
            method.0,
            args.as_slice().len(),
        ) {
            Some(found) => Act::Local(Change::Call(found)),
            None => Act::Stuck,
        },
        Ready::Send { to, method, .. } => match to.value {
            Value::Ref(receiver) => Act::Send {
                to: receiver,
                method: *method,
            },
            Value::Nil => Act::Fault(Error::NilDestination),
            _ => Act::Stuck,
        },
        Ready::Wait { receiver, method } => Act::Waits {
            on: *receiver,
            method: *method,
        },
    }
}

/// The action at a select with these guards: the first error that applies, or the select.
#[tactic(auto, using(stepper_terms::proofs::Laws::nil_guard, stepper_terms::proofs::Laws::other_guard, stepper_terms::proofs::Laws::true_guard, std::proofs::lemmas::List::drop_all))]
fn act_select<'a>(guards: &[Guarded<'_>]) -> Act<'a>
    ensures gives { (x : Object) → on_select (choices guards.now) ≡ acted x [] [] (choices guards.now) result }
    ensures suits { (xs : List Activation) (n : Focus) → is_statement n ≡ true → keeps_temps n ≡ true → Suits xs n result }
{
    let mut some_nil = false;
    let mut some_not_bool = false;
    let mut some_true = false;
    for guarded in guards {
        match guarded.guard.value {
            Value::Nil => {
                some_nil = true;
                some_not_bool = true;
            }
            Value::Bool(truth) => some_true = some_true || truth,
            _ => some_not_bool = true,
        }
    }
    if some_nil {
        Act::Fault(Error::NilOperand)
    } else if some_not_bool {
        Act::Stuck
    } else if some_true {
        Act::Select
    } else {
        Act::Fault(Error::NoOpenGuard)
    }
}

/// The action at an assignment.
fn act_assign<'a>(temps: &[Binding], vars: &[Binding], name: u32, value: Value) -> Act<'a>
    ensures gives { (class : ℕ) (tm : Statements) (f : Option Error) → on_assignment (object_with class vars.now tm f) temps.now name value ≡ acted (object_with class vars.now tm f) [] [] [] result }
    ensures suits { (xs : List Activation) (n : Focus) → is_statement n ≡ true → next_assigns n ≡ Some (name, value) → Suits xs n result }
{
    if value_of(temps, name).is_some() {
        Act::Local(Change::SetTemp { name, value })
    } else if value_of(vars, name).is_some() {
        Act::Local(Change::SetVariable { name, value })
    } else {
        Act::Stuck
    }
}

/// The action at a statement that is the redex.
fn act_task<'a>(class: u32, temps: &[Binding], vars: &[Binding], task: &Task<'a>) -> Act<'a>
    ensures gives { (p : ProgramTree) (o : ℕ) (tm : Statements) (f : Option Error)
        → redex_action p o (object_with class vars.now tm f) temps.now (task_redex task.now)
        ≡ acted (object_with class vars.now tm f) (task_args task.now) (task_names task.now) (task_choices task.now) result }
    ensures suits { (xs : List Activation) (n : Focus) → is_statement n ≡ true → keeps_temps n ≡ not (assigns (statement task.now)) → next_assigns n ≡ assigning task.now → Suits xs n result }
{
    match task {
        Task::Assign { target, value } => act_assign(temps, vars, target.name.0, value.value),
        Task::Write { value } => Act::Write(Item::Value(value.value)),
        Task::WriteText { text } => Act::Write(Item::Text(*text)),
        Task::Do { .. } => Act::Local(Change::Done),
        Task::Async { to, method, .. } => match to.value {
            Value::Ref(receiver) => Act::Async {
                to: receiver,
                method: method.name,
            },
            Value::Nil => Act::Fault(Error::NilDestination),
            _ => Act::Stuck,
        },
        Task::If { cond, yes, no } => match cond.value {
            Value::Bool(true) => Act::Local(Change::Branch(yes)),
            Value::Bool(false) => Act::Local(Change::Branch(no)),
            Value::Nil => Act::Fault(Error::NilOperand),
            _ => Act::Stuck,
        },
        Task::Loop { value, cond, body } => match value.value {
            Value::Bool(true) => Act::Local(Change::Repeat { cond, body }),
            Value::Bool(false) => Act::Local(Change::Done),
            Value::Nil => Act::Fault(Error::NilOperand),
            _ => Act::Stuck,
        },
        Task::While { cond, body } => Act::Local(Change::Unfold { cond, body }),
        Task::Answer { .. } => Act::Answer,
        Task::Select { guards } => act_select(guards.as_slice()),
    }
}

/// The action at the end of this method, if it has this value.
fn act_end<'a>(call: &Activation<'_>, value: Operand) -> Act<'a>
    ensures gives { (p : ProgramTree) (o : ℕ) (x : Object) (t : Store) (vs : List Value) (ns : List Named) (cs : List Choice)
        → redex_action p o x t (last_redex call.now value) ≡ acted x vs ns cs result }
    ensures suits { (xs : List Activation) (n : Focus) → is_end n ≡ true → slice_get xs (length xs - 1) ≡ Some call.now → end_value call.now.stage n ≡ value → Suits xs n result }
{
    match &call.outer {
        SuspendedCall::Expression { .. } => Act::Local(Change::Leave(value.value)),
        SuspendedCall::Statement { .. } => match call.caller() {
            None => Act::Local(Change::End),
            Some(caller) => Act::Return {
                caller,
                value: value.value,
            },
        },
    }
}

/// The action at the end of a method or of a body.
#[tactic(auto, using(crate::proofs::EndActions::last_acts, crate::proofs::EndActions::body_acts))]
fn act_last<'a>(work: &Continuation<'_>) -> Act<'a>
    requires { IsTrue (is_end work.now.next) }
    ensures gives { (p : ProgramTree) (o : ℕ) (x : Object) (vs : List Value) (ns : List Named) (cs : List Choice) → x.term ≡ term_of work.now → action p o x ≡ acted x vs ns cs result }
    ensures suits { Suits work.now.calls.items work.now.next result }
{
    match work.calls.as_slice().last() {
        None => Act::Finished,
        Some(call) => act_end(call, call.end_value(&work.next)),
    }
}

/// The temps of the innermost method under way; empty in a body.
#[tactic(auto, using(stepper_terms::proofs::Laws::temps_last, stepper_terms::proofs::Laws::none_last))]
pub fn temps<'s>(calls: &'s [Activation<'_>]) -> &'s [Binding]
    ensures { result.now ≡ temps_at [] calls.now }
{
    match calls.last() {
        None => &[],
        Some(call) => call.temps.as_slice(),
    }
}

/// The next action of an object with this work, name, class and variables.
#[tactic(auto, using(stepper_terms::proofs::Laws::expression_next, stepper_terms::proofs::Laws::statement_next, stepper_terms::proofs::Laws::action_at))]
pub fn next_act<'a>(
    work: &Continuation<'a>,
    program: &'a Program,
    name: u32,
    class: u32,
    vars: &[Binding],
) -> Act<'a>
    ensures gives { (f : Option Error)
        → action (program_of program.now) name (object_with class vars.now (term_of work.now) f)
        ≡ acted (object_with class vars.now (term_of work.now) f) (now_args work.now.next) (now_names work.now.next) (now_choices work.now.next) result }
    ensures suits { Suits work.now.calls.items work.now.next result }
{
    let calls = work.calls.as_slice();
    match &work.next {
        Focus::Expression { redex, .. } => act_ready(
            program,
            name,
            class,
            temps(calls),
            vars,
            redex,
        ),
        Focus::Statement { task, .. } => act_task(class, temps(calls), vars, task),
        Focus::Value { .. } => act_last(work),
        Focus::Over => act_last(work),
    }
}

impl<'a> Act<'a> {
    /// Whether the action returns this value to the caller.
    pub fn returns(&self, caller: u32, value: Value) -> bool
        ensures { result ≡ returns_act self.now caller value }
    {
        match *self {
            Act::Return {
                caller: to,
                value: returned,
            } => to == caller && same(returned, value),
            _ => false,
        }
    }

    /// Whether the action waits for the receiver.
    pub fn waits_for(&self, receiver: u32) -> bool
        ensures { result ≡ waits_act self.now receiver }
    {
        match *self {
            Act::Waits { on, .. } => on == receiver,
            _ => false,
        }
    }

    /// Whether the action calls this method of the receiver. `same_args` says whether the arguments are the same; if
    /// it is false, so is the answer.
    pub fn calls(&self, receiver: u32, method: NameId, same_args: bool) -> bool
        ensures { result ≡ calls_act self.now receiver method.0 same_args }
    {
        match *self {
            Act::Send { to, method: called } => to == receiver && called.0 == method.0 && same_args,
            _ => false,
        }
    }

    /// Whether the action sends the receiver a message for this method. `same_args` says whether the arguments are the
    /// same; if it is false, so is the answer.
    pub fn posts(&self, receiver: u32, method: NameId, same_args: bool) -> bool
        ensures { result ≡ posts_act self.now receiver method.0 same_args }
    {
        match *self {
            Act::Async { to, method: called } => to == receiver
                && called.0 == method.0
                && same_args,
            _ => false,
        }
    }
}
