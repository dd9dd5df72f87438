//! Looks for names of objects in a state. A text of the program has none.
ghost use Rattle.std.specs.Prelude.{◌≡◌};
ghost use Rattle.std.specs.List.{list_all};
ghost use Rattle.known_names.specs.OtherNames.{are_other, bindings_are_other, call_is_other, focus_is_other, guards_are_other, name_is_other, object_is_other, operand_is_other, outer_is_other, place_is_other, places_are_other, ready_is_other, slot_is_other, stage_is_other, task_is_other, value_is_other, work_is_other};

use run_types::Value;
use stepper_objects::object_state::ObjectState;
use stepper_terms::contexts::{
    Activation, Binding, Continuation, ExpressionContext, Focus, Guarded, Operand, Ready, Stage,
    StatementContext, SuspendedCall, Task,
};

/// The names that may occur: those below `next`, but for `name`.
#[derive(Clone, Copy)]
pub struct OtherNames {
    pub next: u32,
    pub name: u32,
}

/// Whether each of these values that is the name of an object is one of the other names.
pub fn are_values_other(others: OtherNames, values: &[Value]) -> bool
    ensures { result ≡ list_all (value_is_other others.next others.name) values.now }
{
    values.iter().all(|value| others.has_value(*value))
}

impl OtherNames {
    fn has(self, object: u32) -> bool
        ensures { result ≡ name_is_other self.next self.name object }
    {
        object < self.next && object != self.name
    }

    fn has_value(self, value: Value) -> bool
        ensures { result ≡ value_is_other self.next self.name value }
    {
        match value {
            Value::Ref(object) => self.has(object),
            _ => true,
        }
    }

    fn has_operand(self, operand: Operand) -> bool
        ensures { result ≡ operand_is_other self.next self.name operand }
    {
        self.has_value(operand.value)
    }

    fn has_operands(self, operands: &[Operand]) -> bool
        ensures { result ≡ are_other self.next self.name operands.now }
    {
        operands.iter().all(|operand| self.has_operand(*operand))
    }

    fn has_bindings(self, bindings: &[Binding]) -> bool
        ensures { result ≡ bindings_are_other self.next self.name bindings.now }
    {
        bindings.iter().all(|binding| self.has_value(binding.1))
    }

    fn has_guards(self, guards: &[Guarded<'_>]) -> bool
        ensures { result ≡ guards_are_other self.next self.name guards.now }
    {
        guards.iter().all(|guarded| self.has_operand(guarded.guard))
    }

    fn has_place(self, place: &ExpressionContext<'_>) -> bool
        ensures { result ≡ place_is_other self.next self.name place.now }
    {
        match place {
            ExpressionContext::Right { left, .. } => self.has_operand(*left),
            ExpressionContext::CallArgument { done, .. } => self.has_operands(done),
            ExpressionContext::SendArgument { to, done, .. } => {
                self.has_operand(*to) && self.has_operands(done)
            }
            ExpressionContext::Prefix { .. }
            | ExpressionContext::Left { .. }
            | ExpressionContext::Destination { .. } => true,
        }
    }

    fn has_places(self, places: &[ExpressionContext<'_>]) -> bool
        ensures { result ≡ places_are_other self.next self.name places.now }
    {
        places.iter().all(|place| self.has_place(place))
    }

    fn has_slot(self, slot: &StatementContext<'_>) -> bool
        ensures { result ≡ slot_is_other self.next self.name slot.now }
    {
        match slot {
            StatementContext::Argument { to, done, .. } => {
                self.has_operand(*to) && self.has_operands(done)
            }
            StatementContext::Guard { done, .. } => self.has_guards(done),
            StatementContext::Assign { .. }
            | StatementContext::Write
            | StatementContext::Do
            | StatementContext::Destination { .. }
            | StatementContext::If { .. }
            | StatementContext::Loop { .. }
            | StatementContext::Value => true,
        }
    }

    fn has_ready(self, redex: &Ready) -> bool
        ensures { result ≡ ready_is_other self.next self.name redex.now }
    {
        match redex {
            Ready::Prefix { arg, .. } => self.has_operand(*arg),
            Ready::Infix { left, right, .. } => {
                self.has_operand(*left) && self.has_operand(*right)
            }
            Ready::Call { args, .. } => self.has_operands(args),
            Ready::Send { to, args, .. } => self.has_operand(*to) && self.has_operands(args),
            Ready::Wait { receiver, .. } => self.has(*receiver),
            Ready::Me { .. } | Ready::Variable { .. } | Ready::Create { .. } => true,
        }
    }

    fn has_task(self, task: &Task<'_>) -> bool
        ensures { result ≡ task_is_other self.next self.name task.now }
    {
        match task {
            Task::Assign { value, .. }
            | Task::Write { value }
            | Task::Do { value }
            | Task::Loop { value, .. } => self.has_operand(*value),
            Task::Async { to, args, .. } => self.has_operand(*to) && self.has_operands(args),
            Task::If { cond, .. } => self.has_operand(*cond),
            Task::Select { guards } => self.has_guards(guards),
            Task::WriteText { .. } | Task::While { .. } | Task::Answer { .. } => true,
        }
    }

    fn has_focus(self, next: &Focus<'_>) -> bool
        ensures { result ≡ focus_is_other self.next self.name next.now }
    {
        match next {
            Focus::Expression {
                redex,
                places,
                slot,
                ..
            } => self.has_ready(redex) && self.has_places(places) && self.has_slot(slot),
            Focus::Statement { task, .. } => self.has_task(task),
            Focus::Value { value } => self.has_operand(*value),
            Focus::Over => true,
        }
    }

    fn has_outer(self, outer: &SuspendedCall<'_>) -> bool
        ensures { result ≡ outer_is_other self.next self.name outer.now }
    {
        match outer {
            SuspendedCall::Expression { places, slot, .. } => {
                self.has_places(places) && self.has_slot(slot)
            }
            SuspendedCall::Statement { caller, .. } => match caller {
                Some(object) => self.has(*object),
                None => true,
            },
        }
    }

    fn has_stage(self, stage: Stage<'_>) -> bool
        ensures { result ≡ stage_is_other self.next self.name stage.entry }
    {
        match stage {
            Stage::Body { .. } => true,
            Stage::Post { value } => self.has_operand(value),
        }
    }

    fn has_call(self, call: &Activation<'_>) -> bool
        ensures { result ≡ call_is_other self.next self.name call.now }
    {
        self.has_outer(&call.outer) && self.has_bindings(&call.temps) && self.has_stage(call.stage)
    }

    fn has_calls(self, calls: &[Activation<'_>]) -> bool
        ensures { result ≡ list_all (call_is_other self.next self.name) calls.now }
    {
        calls.iter().all(|call| self.has_call(call))
    }

    fn has_work(self, work: &Continuation<'_>) -> bool
        ensures { result ≡ work_is_other self.next self.name work.now }
    {
        self.has_calls(&work.calls) && self.has_focus(&work.next)
    }

    /// Whether each name of an object in the state is one of these.
    pub fn has_object(self, object: &ObjectState<'_>) -> bool
        ensures { result ≡ object_is_other self.next self.name object.now }
    {
        self.has_bindings(&object.vars) && self.has_work(&object.work)
    }
}
