//! Changes of an object's work: another part replaces the redex. A change that runs out of memory reports
//! `AllocError`, and the work is then unspecified.
ghost use Rattle.std.specs.Prelude.{◌≡◌, [], ◌∷◌, ◌++◌, Some, Ok, OnOk, IfOk, IsOkAnd, IsTrue, length};
ghost use Rattle.pool_syntax.specs.TreeOf.{expression_of, statements_of, method_tree};
ghost use Rattle.pool_syntax.specs.Terms as T;
ghost use Rattle.pool_syntax.specs.Terms.{append};
ghost use Rattle.pool_relation.specs.Reducible.{AsExpression, AsStatements, set_value, fill_statements, statements_redex};
ghost use Rattle.pool_relation.specs.Transition.{work_left};
ghost use Rattle.pool_relation.specs.Action.{literal, bind, nil_store, temps_of};
ghost use Rattle.stepper_terms.specs.Parts.{left, around, layers, bottom, content, stopped, operand, Running, Valued, loop_of, term_of, wanted, expression_seen, caller_at, caller_of};
ghost use Rattle.stepper_terms.specs.Reduced.{values};
ghost use Rattle.stepper_terms.specs.Arguments.{now_args};
ghost use Rattle.stepper_terms.specs.Changes.{is_expression, is_statement, is_call, is_end, is_awaited, next_assigns, end_part, end_value, after_left, rest_of, keeps_temps};

use crate::contexts::{
    Activation, Binding, Continuation, Focus, Operand, Ready, Segment, Stage, StatementContext,
    SuspendedCall, Task,
};
use crate::enter::{advance, before, enter, settle};
use pool_syntax::{Expr, Method, Stmt, Var};
use run_types::{NameId, Value};
use std::alloc::{AllocError, Global};
use std::mem;

/// The largest number of methods that are under way in one object. It bounds the memory that a record of few lines can
/// ask for.
const MOST_CALLS: usize = 1_000_000;

/// Sets the first variable of this name to the value. If there is none, nothing changes.
pub fn set(bindings: &mut Vec<Binding>, name: u32, value: Value)
    ensures { bindings.new.items ≡ set_value bindings.old.items name value }
{
    let mut at = 0;
    while at < bindings.len() {
        if bindings[at].0 == name {
            bindings[at] = (name, value);
            return;
        }
        at += 1;
    }
}

/// The values of these operands. Reports `AllocError` if memory runs out.
#[tactic(auto, using(crate::proofs::Lengths::values_more))]
fn values(alloc: Global, operands: &[Operand]) -> Result<Vec<Value>, AllocError>
    ensures { IfOk result (λ v. v.items ≡ values operands.now) }
{
    let mut found = Vec::new(alloc);
    let mut rest = operands;
    while let Some((first, others)) = rest.split_first() {
        found.push(first.value)?;
        rest = others;
    }
    Ok(found)
}

/// Adds the parameters with their arguments. A parameter without argument is nil.
#[tactic(auto, using(crate::proofs::Lengths::bind_nothing, std::proofs::lemmas::List::append_assoc))]
fn add_params(temps: &mut Vec<Binding>, params: &[Var], args: &[Value]) -> Result<(), AllocError>
    ensures { OnOk result (temps.new.items ≡ temps.old.items ++ bind params.now args.now) }
{
    let mut params = params;
    let mut args = args;
    while let Some((param, others)) = params.split_first() {
        match args.split_first() {
            Some((first, more)) => {
                temps.push((param.name.0, *first))?;
                args = more;
            }
            None => temps.push((param.name.0, Value::Nil))?,
        }
        params = others;
    }
    Ok(())
}

/// Adds these variables with the value nil.
fn add_locals(temps: &mut Vec<Binding>, locals: &[Var]) -> Result<(), AllocError>
    ensures { OnOk result (temps.new.items ≡ temps.old.items ++ nil_store locals.now) }
{
    let mut rest = locals;
    while let Some((first, others)) = rest.split_first() {
        temps.push((first.name.0, Value::Nil))?;
        rest = others;
    }
    Ok(())
}

/// These variables with the value nil. Reports `AllocError` if memory runs out.
pub fn nil_store(alloc: Global, vars: &[Var]) -> Result<Vec<Binding>, AllocError>
    ensures { IfOk result (λ t. t.items ≡ nil_store vars.now) }
{
    let mut store = Vec::new(alloc);
    add_locals(&mut store, vars)?;
    Ok(store)
}

/// The parameters of a method with their arguments, and its locals as nil.
fn temps_for(alloc: Global, method: &Method, args: &[Value]) -> Result<Vec<Binding>, AllocError>
    ensures { IfOk result (λ t. t.items ≡ temps_of (method_tree method.now) args.now) }
{
    let mut temps = Vec::new(alloc);
    add_params(&mut temps, method.params.items(), args)?;
    add_locals(&mut temps, method.locals.items())?;
    Ok(temps)
}

/// The focus at a statement that drops the value.
fn dropped<'a>(alloc: Global, value: Operand) -> Focus<'a>
    ensures { stopped result ≡ Running (T.Then (T.Do (operand value)) T.Done) }
{
    Focus::Statement {
        task: Task::Do { value },
        rest: Vec::new(alloc),
    }
}

/// The value to evaluate after the last statement: that of the innermost method. None if it is evaluated already, or
/// in a body.
fn wanted<'a>(calls: &[Activation<'a>]) -> Option<&'a Expr>
    ensures { expression_seen result ≡ wanted calls.now }
{
    match calls.last() {
        None => None,
        Some(call) => match call.stage {
            Stage::Body { value, .. } => Some(value),
            Stage::Post { .. } => None,
        },
    }
}

impl<'a> Activation<'a> {
    /// The caller that the method serves. None for an own method, for a method that serves no one, and while post
    /// statements are under way.
    pub fn caller(&self) -> Option<u32>
        ensures { result ≡ caller_of self.now.stage self.now.outer }
    {
        match self.stage {
            Stage::Post { .. } => None,
            Stage::Body { .. } => match &self.outer {
                SuspendedCall::Expression { .. } => None,
                SuspendedCall::Statement { caller, .. } => *caller,
            },
        }
    }

    /// The value of the method at its end, if `next` is the focus there. It is nil if no value was evaluated.
    pub fn end_value(&self, next: &Focus<'_>) -> Operand
        ensures { result ≡ end_value self.now.stage next.now }
    {
        match self.stage {
            Stage::Post { value } => value,
            Stage::Body { .. } => match next {
                Focus::Value { value } => *value,
                _ => Operand {
                    value: Value::Nil,
                    pos: 0,
                },
            },
        }
    }
}

impl<'a> Continuation<'a> {
    /// The work of a new object with this body. Reports `AllocError` if memory runs out.
    #[tactic(auto, using(crate::proofs::ContextPlug::append_nothing, crate::proofs::NextFocus::body_ahead))]
    pub fn make(alloc: Global, body: &'a [Stmt]) -> Result<Continuation<'a>, AllocError>
        ensures { IfOk result (λ w. term_of w ≡ statements_of body.now) }
    {
        let rest = before(body, Vec::new(alloc))?;
        let next = advance(alloc, rest, None)?;
        Ok(Continuation {
            calls: Vec::new(alloc),
            next,
        })
    }

    /// Sets the focus.
    #[inline(always)]
    fn put(&mut self, next: Focus<'a>)
        ensures next { self.new.next ≡ next.entry }
        ensures calls { self.new.calls ≡ self.old.calls }
    {
        self.next = next;
    }

    /// Sets the focus, if there was memory to make it.
    #[inline(always)]
    fn put_made(&mut self, next: Result<Focus<'a>, AllocError>) -> Result<(), AllocError>
        ensures { OnOk result ((next.entry ≡ Ok self.new.next) × (self.new.calls ≡ self.old.calls)) }
    {
        self.put(next?);
        Ok(())
    }

    /// Makes this method the innermost one. Reports `AllocError` if memory runs out, or if 1,000,000 methods are under
    /// way.
    #[inline(always)]
    fn stack(&mut self, call: Activation<'a>) -> Result<(), AllocError>
        ensures { OnOk result ((self.new.calls.items ≡ self.old.calls.items ++ call.entry ∷ []) × (self.new.next ≡ self.old.next)) }
    {
        if self.calls.len() >= MOST_CALLS {
            return Err(AllocError);
        }
        self.calls.push(call)?;
        Ok(())
    }

    /// Begins the post statements of the method, which holds its value.
    #[tactic(auto, using(crate::proofs::NextFocus::post_ahead, crate::proofs::ContextPlug::append_nothing))]
    fn begin_post(
        &mut self,
        alloc: Global,
        call: Activation<'a>,
        value: Operand,
        post: &'a [Stmt],
    ) -> Result<(), AllocError>
        ensures { OnOk result
            (term_of self.new ≡ bottom (layers self.old.calls.items (around call.entry.outer None call.entry.method.0 call.entry.temps.items (T.Done, operand value, statements_of post.now)))) }
    {
        let mut call = call;
        call.stage = Stage::Post { value };
        self.stack(call)?;
        let rest = before(post, Vec::new(alloc))?;
        let next = advance(alloc, rest, None);
        self.put_made(next)
    }

    /// Makes this method the innermost one, with this focus.
    fn stand(&mut self, call: Activation<'a>, next: Focus<'a>) -> Result<(), AllocError>
        ensures { OnOk result ((self.new.calls.items ≡ self.old.calls.items ++ call.entry ∷ []) × (self.new.next ≡ next.entry)) }
    {
        self.put(next);
        self.stack(call)
    }

    /// Passes an evaluated value to this method. If a caller waits for it, the focus is the value. Otherwise the post
    /// statements begin. If they are under way already, the value is dropped.
    #[tactic(auto, using(crate::proofs::NextFocus::value_for_caller, crate::proofs::NextFocus::value_for_no_one, crate::proofs::NextFocus::value_in_post))]
    fn pass_in(
        &mut self,
        alloc: Global,
        call: Activation<'a>,
        value: Operand,
    ) -> Result<(), AllocError>
        ensures { OnOk result (term_of self.new ≡ bottom (layers (self.old.calls.items ++ call.entry ∷ []) (Valued (operand value)))) }
    {
        match call.stage {
            Stage::Body { post, .. } => match call.caller() {
                Some(_) => self.stand(call, Focus::Value { value }),
                None => self.begin_post(alloc, call, value, post),
            },
            Stage::Post { .. } => self.stand(call, dropped(alloc, value)),
        }
    }

    /// Passes an evaluated value to the innermost method. In a body the value is dropped.
    fn pass(&mut self, alloc: Global, value: Operand) -> Result<(), AllocError>
        ensures { OnOk result (term_of self.new ≡ bottom (layers self.old.calls.items (Valued (operand value)))) }
    {
        match self.calls.pop() {
            Some(call) => self.pass_in(alloc, call, value),
            None => {
                self.put(dropped(alloc, value));
                Ok(())
            }
        }
    }

    /// Sets the focus, if there was memory to make it. An evaluated value is passed on, unless a caller waits for it.
    fn come_to(
        &mut self,
        alloc: Global,
        next: Result<Focus<'a>, AllocError>,
    ) -> Result<(), AllocError>
        ensures { OnOk result (IsOkAnd next.entry (λ n. term_of self.new ≡ bottom (layers self.old.calls.items (content n)))) }
    {
        self.put(next?);
        match self.next {
            Focus::Value { value } => self.pass(alloc, value),
            _ => Ok(()),
        }
    }

    /// Continues with these statements, after the redex.
    #[tactic(auto, using(crate::proofs::NextFocus::all_ahead))]
    fn go_on(&mut self, alloc: Global, rest: Vec<Segment<'a>>) -> Result<(), AllocError>
        ensures { OnOk result (term_of self.new ≡ bottom (layers self.old.calls.items (Running (left rest.entry.items)))) }
    {
        let value = wanted(self.calls.as_slice());
        let next = advance(alloc, rest, value);
        self.come_to(alloc, next)
    }

    /// Replaces the redex, which is an expression, by this value.
    #[tactic(auto, using(crate::proofs::ContinuationChanges::expression_filled))]
    pub fn give(&mut self, alloc: Global, value: Value) -> Result<(), AllocError>
        requires { IsTrue (is_expression self.old.next) }
        ensures { OnOk result (term_of self.new ≡ fill_statements (term_of self.old) (AsExpression (literal value))) }
    {
        match mem::replace(&mut self.next, Focus::Over) {
            Focus::Expression {
                redex,
                places,
                slot,
                rest,
            } => {
                mem::drop(redex);
                let operand = Operand { value, pos: 0 };
                let next = settle(alloc, operand, places, slot, rest);
                self.come_to(alloc, next)
            }
            _ => unreachable!(),
        }
    }

    /// Removes the statement that is the redex, and reports the statements after it.
    fn take(&mut self) -> Vec<Segment<'a>>
        requires { IsTrue (is_statement self.old.next) }
        ensures rest { left result.items ≡ rest_of self.old.next }
        ensures calls { self.new.calls ≡ self.old.calls }
    {
        match mem::replace(&mut self.next, Focus::Over) {
            Focus::Statement { task: _, rest } => rest,
            _ => unreachable!(),
        }
    }

    /// Ends the statement that is the redex. It is no assignment.
    #[tactic(auto, using(crate::proofs::ContinuationChanges::next_filled))]
    pub fn finish(&mut self, alloc: Global) -> Result<(), AllocError>
        requires statement { IsTrue (is_statement self.old.next) }
        requires plain { IsTrue (keeps_temps self.old.next) }
        ensures { OnOk result (term_of self.new ≡ fill_statements (term_of self.old) (AsStatements T.Done)) }
    {
        let rest = self.take();
        self.go_on(alloc, rest)
    }

    /// Replaces the redex by these statements. The redex is a statement other than an assignment.
    #[tactic(auto, using(crate::proofs::ContinuationChanges::next_filled))]
    pub fn branch(&mut self, alloc: Global, statements: &'a [Stmt]) -> Result<(), AllocError>
        requires statement { IsTrue (is_statement self.old.next) }
        requires plain { IsTrue (keeps_temps self.old.next) }
        ensures { OnOk result (term_of self.new ≡ fill_statements (term_of self.old) (AsStatements (statements_of statements.now))) }
    {
        let rest = before(statements, self.take())?;
        self.go_on(alloc, rest)
    }

    /// Replaces the redex by the body of a loop and then the loop. The redex is a statement other than an assignment.
    #[tactic(auto, using(crate::proofs::ContinuationChanges::next_filled, crate::proofs::ContextPlug::left_more, crate::proofs::ContextPlug::append_append))]
    pub fn repeat(
        &mut self,
        alloc: Global,
        cond: &'a Expr,
        body: &'a [Stmt],
    ) -> Result<(), AllocError>
        requires statement { IsTrue (is_statement self.old.next) }
        requires plain { IsTrue (keeps_temps self.old.next) }
        ensures { OnOk result (term_of self.new ≡ fill_statements (term_of self.old) (AsStatements (append (statements_of body.now) (loop_of (expression_of cond.now) (statements_of body.now))))) }
    {
        let mut rest = self.take();
        rest.push(Segment::Again { cond, body })?;
        let rest = before(body, rest)?;
        self.go_on(alloc, rest)
    }

    /// Replaces the redex by an `if` of the condition: the body and then the loop, or nothing. The redex is a
    /// statement other than an assignment.
    #[tactic(auto, using(crate::proofs::ContinuationChanges::next_filled))]
    pub fn unfold(
        &mut self,
        alloc: Global,
        cond: &'a Expr,
        body: &'a [Stmt],
    ) -> Result<(), AllocError>
        requires statement { IsTrue (is_statement self.old.next) }
        requires plain { IsTrue (keeps_temps self.old.next) }
        ensures { OnOk result
            (term_of self.new
            ≡ fill_statements (term_of self.old)
            (AsStatements (T.Then (T.If (expression_of cond.now) (append (statements_of body.now) (loop_of (expression_of cond.now) (statements_of body.now))) T.Done) T.Done))) }
    {
        let rest = self.take();
        let next = enter(alloc, cond, StatementContext::Loop { cond, body }, rest);
        self.come_to(alloc, next)
    }

    /// Ends the assignment that is the redex. If the variable is one of the innermost method, it gets the value.
    #[tactic(auto, using(crate::proofs::ContinuationChanges::assigned_bottom))]
    pub fn assign(&mut self, alloc: Global, name: u32, value: Value) -> Result<(), AllocError>
        requires statement { IsTrue (is_statement self.old.next) }
        requires assigns { next_assigns self.old.next ≡ Some (name, value) }
        ensures { OnOk result (term_of self.new ≡ fill_statements (term_of self.old) (AsStatements T.Done)) }
    {
        let rest = self.take();
        match self.calls.pop() {
            None => self.go_on(alloc, rest),
            Some(call) => {
                let mut call = call;
                set(&mut call.temps, name, value);
                self.stack(call)?;
                self.go_on(alloc, rest)
            }
        }
    }

    /// Begins the method in this outer context, with these variables.
    #[tactic(auto, using(crate::proofs::Layers::layers_more, crate::proofs::ContextPlug::append_nothing))]
    fn begin(
        &mut self,
        alloc: Global,
        outer: SuspendedCall<'a>,
        method: &'a Method,
        temps: Vec<Binding>,
    ) -> Result<(), AllocError>
        ensures { OnOk result
            (term_of self.new
            ≡ bottom (layers self.old.calls.items
            (around outer.entry (caller_at outer.entry) method.now.name.name.0 temps.items
            (statements_of method.now.body, expression_of method.now.value, statements_of method.now.post)))) }
    {
        self.stack(Activation {
            outer,
            method: method.name.name,
            temps,
            stage: Stage::Body {
                value: &method.value,
                post: method.post.items(),
            },
        })?;
        let body = before(method.body.items(), Vec::new(alloc))?;
        self.go_on(alloc, body)
    }

    /// The variables of the method in the own call that is the redex.
    fn temps_of_call(&self, alloc: Global, method: &Method) -> Result<Vec<Binding>, AllocError>
        requires { IsTrue (is_call self.now.next) }
        ensures { IfOk result (λ t. t.items ≡ temps_of (method_tree method.now) (now_args self.now.next)) }
    {
        match &self.next {
            Focus::Expression {
                redex: Ready::Call { args, .. },
                ..
            } => {
                let args = values(alloc, args.as_slice())?;
                temps_for(alloc, method, args.as_slice())
            }
            _ => unreachable!(),
        }
    }

    /// Begins this method in the own call that is the redex.
    #[tactic(auto, using(crate::proofs::ContinuationChanges::expression_filled))]
    pub fn call(&mut self, alloc: Global, method: &'a Method) -> Result<(), AllocError>
        requires { IsTrue (is_call self.old.next) }
        ensures { OnOk result
            (term_of self.new
            ≡ fill_statements (term_of self.old)
            (AsExpression
            (T.Frame method.now.name.name.0 (temps_of (method_tree method.now) (now_args self.old.next)) (statements_of method.now.body) (expression_of method.now.value)
            (statements_of method.now.post)))) }
    {
        let temps = self.temps_of_call(alloc, method)?;
        match mem::replace(&mut self.next, Focus::Over) {
            Focus::Expression {
                redex,
                places,
                slot,
                rest,
            } => {
                mem::drop(redex);
                let outer = SuspendedCall::Expression { places, slot, rest };
                self.begin(alloc, outer, method, temps)
            }
            _ => unreachable!(),
        }
    }

    /// Leaves the innermost method at its end. In a body nothing is left to do.
    #[tactic(auto, using(crate::proofs::ContinuationChanges::left_bottom, crate::proofs::ContinuationChanges::left_call))]
    pub fn leave(&mut self, alloc: Global) -> Result<(), AllocError>
        requires { IsTrue (is_end self.old.next) }
        ensures { OnOk result (term_of self.new ≡ fill_statements (term_of self.old) (end_part self.old.calls.items self.old.next)) }
    {
        match self.calls.pop() {
            None => {
                self.put(Focus::Over);
                Ok(())
            }
            Some(call) => {
                let value = call.end_value(&self.next);
                self.leave_to(alloc, call.outer, value.value)
            }
        }
    }

    /// Continues after the value of the innermost method was returned to its caller: with its post statements, or
    /// after the method if it has none.
    #[tactic(auto, using(crate::proofs::ContinuationChanges::returned_left, crate::proofs::ContinuationChanges::returned_post))]
    pub fn hand_over(&mut self, alloc: Global) -> Result<(), AllocError>
        requires end { IsTrue (is_end self.old.next) }
        requires awaited { IsTrue (is_awaited self.old.calls.items) }
        ensures { OnOk result (term_of self.new ≡ fill_statements (term_of self.old) (AsStatements (work_left (statements_redex [] (term_of self.old))))) }
    {
        match self.calls.pop() {
            None => unreachable!(),
            Some(call) => {
                let value = call.end_value(&self.next);
                match call.stage {
                    Stage::Body { post, .. } => {
                        if post.is_empty() {
                            self.leave_to(alloc, call.outer, value.value)
                        } else {
                            self.begin_post(alloc, call, value, post)
                        }
                    }
                    Stage::Post { .. } => unreachable!(),
                }
            }
        }
    }

    /// Continues where the method was called, with its value.
    fn leave_to(
        &mut self,
        alloc: Global,
        outer: SuspendedCall<'a>,
        value: Value,
    ) -> Result<(), AllocError>
        ensures { OnOk result (term_of self.new ≡ bottom (layers self.old.calls.items (after_left outer.entry value))) }
    {
        match outer {
            SuspendedCall::Expression { places, slot, rest } => {
                let operand = Operand { value, pos: 0 };
                let next = settle(alloc, operand, places, slot, rest);
                self.come_to(alloc, next)
            }
            SuspendedCall::Statement { caller: _, rest } => self.go_on(alloc, rest),
        }
    }

    /// Begins to serve the method at the answer or select that is the redex. It is for the caller or for no one, and
    /// the statements `after` follow it.
    #[tactic(auto, using(crate::proofs::ContinuationChanges::next_filled))]
    pub fn serve(
        &mut self,
        alloc: Global,
        method: &'a Method,
        caller: Option<u32>,
        args: &[Value],
        after: &'a [Stmt],
    ) -> Result<(), AllocError>
        requires statement { IsTrue (is_statement self.old.next) }
        requires plain { IsTrue (keeps_temps self.old.next) }
        ensures { OnOk result
            (term_of self.new
            ≡ fill_statements (term_of self.old)
            (AsStatements
            (T.Then (T.Serve method.now.name.name.0 caller (temps_of (method_tree method.now) args.now) (statements_of method.now.body) (expression_of method.now.value)
            (statements_of method.now.post)) (statements_of after.now)))) }
    {
        let temps = temps_for(alloc, method, args)?;
        let rest = before(after, self.take())?;
        self.begin(
            alloc,
            SuspendedCall::Statement { caller, rest },
            method,
            temps,
        )
    }

    /// Replaces the redex, which is an expression, by the wait for this call.
    #[tactic(auto, using(crate::proofs::ContinuationChanges::expression_filled))]
    pub fn wait(&mut self, receiver: u32, method: NameId)
        requires { IsTrue (is_expression self.old.next) }
        ensures { term_of self.new ≡ fill_statements (term_of self.old) (AsExpression (T.Wait receiver method.0)) }
    {
        match &mut self.next {
            Focus::Expression { redex, .. } => *redex = Ready::Wait { receiver, method },
            _ => unreachable!(),
        }
    }
}
