//! The check of statements.
ghost use Rattle.std.specs.Prelude.{◌≡◌, ◌≤◌, ◌++◌, ◌||◌, [], not, is_some, OnOk};
ghost use Rattle.pool_syntax.specs.FaultNumbers.{answer_name as answer_name_number};
ghost use Rattle.pool_syntax.specs.TreeOf.{alternatives_of, expression_of, statement_of, statements_of};
ghost use Rattle.run_types.specs.Sorts.{BoolSort};
ghost use Rattle.pool_syntax.specs.Typing.{alternatives_faults, answer_faults, expression_faults, fault_if, own_method, names_faults, needs, needs_any, statement_faults, statements_faults};
ghost use Rattle.type_check.specs.NotedFaults.{Notes};
ghost use Rattle.type_check.specs.CheckerScopes.{scope_of};

use crate::expressions::{arguments, note_destination, note_name, one_more, params_of, placed};
use crate::fault::{ClassFault, note};
use crate::index::{Index, places_of};
use crate::scope::Scope;
use crate::sort::{Sort, note_misfit, note_no_result};
use pool_syntax::{Alt, Expr, Named, Stmt};
use run_types::List;
use std::alloc::{AllocError, Global};

/// Notes a name of an answer list that is no method of the own class, or that is already in the list.
fn answer_name(scope: &Scope, again: bool, named: Named, first: &mut Option<ClassFault>)
    ensures { Notes first.old first.new (fault_if (not (is_some (own_method (scope_of scope.now) named.name.0)) || again) named.pos answer_name_number) }
{
    if scope.own_method(named.name).is_none() || again {
        note(first, ClassFault::AnswerName { token: named.pos });
    }
}

fn each_answer_name(scope: &Scope, names: &Index<Named>, first: &mut Option<ClassFault>)
    ensures { Notes first.old first.new (names_faults (scope_of scope.now) [] names.now.list.now) }
{
    for (i, named) in names.list.iter().enumerate() {
        let again = names.is_before(i, named.name);
        answer_name(scope, again, *named, first);
    }
}

/// Notes the faults of an answer list.
fn answer_names(
    alloc: Global,
    scope: &Scope,
    names: &[Named],
    first: &mut Option<ClassFault>,
) -> Result<(), AllocError>
    ensures { OnOk result (Notes first.old first.new (names_faults (scope_of scope.now) [] names.now)) }
{
    let places = places_of(alloc, names)?;
    let index = Index {
        list: names,
        places: &places,
    };
    each_answer_name(scope, &index, first);
    Ok(())
}

fn answer(
    alloc: Global,
    scope: &Scope,
    names: &Option<List<Named>>,
    first: &mut Option<ClassFault>,
) -> Result<(), AllocError>
    ensures { OnOk result (Notes first.old first.new (answer_faults (scope_of scope.now) names.now)) }
{
    match names {
        Some(names) => answer_names(alloc, scope, names.items(), first),
        None => Ok(()),
    }
}

#[tactic(auto, using(crate::proofs::FaultAccumulation::noted_append))]
/// Notes the faults of a condition that begins with `held` operands held.
fn condition(scope: &Scope, held: u8, expr: &Expr, first: &mut Option<ClassFault>)
    requires { held ≤ 64 }
    ensures { Notes first.old first.new (expression_faults (scope_of scope.now) held (expression_of expr.now) ++ needs (scope_of scope.now) BoolSort (expression_of expr.now)) }
{
    let at = placed(scope, held, expr, first);
    note_misfit(at, Sort::Bool, first);
}

#[tactic(auto, using(crate::proofs::FaultAccumulation::noted_append))]
/// Notes the faults of a statement.
#[cycle(statements)]
fn statement(
    alloc: Global,
    scope: &Scope,
    stmt: &Stmt,
    first: &mut Option<ClassFault>,
) -> Result<(), AllocError>
    ensures { OnOk result (Notes first.old first.new (statement_faults (scope_of scope.now) (statement_of stmt.now))) }
{
    match stmt {
        Stmt::Assign { target, value } => {
            let need = note_name(scope, target.name, target.pos, first);
            let value = placed(scope, scope.held(), value, first);
            note_misfit(value, need, first);
            Ok(())
        }
        Stmt::Write { value } => {
            let value = placed(scope, scope.held(), value, first);
            note_no_result(value, first);
            Ok(())
        }
        Stmt::WriteText { .. } => Ok(()),
        Stmt::Do { value } => {
            let _value = placed(scope, scope.held(), value, first);
            Ok(())
        }
        Stmt::Async { to, method, args } => {
            let held = scope.held();
            let to = placed(scope, held, to, first);
            let callee = note_destination(scope, to, *method, args.items().len(), first);
            arguments(scope, held + 1, params_of(callee), args.items(), first);
            Ok(())
        }
        Stmt::If { cond, yes, no } => {
            condition(scope, scope.held(), cond, first);
            statements(alloc, scope, yes.items(), first)?;
            statements(alloc, scope, no.items(), first)?;
            Ok(())
        }
        Stmt::While { cond, body } => {
            condition(scope, scope.held(), cond, first);
            statements(alloc, scope, body.items(), first)?;
            Ok(())
        }
        Stmt::Answer { names } => answer_names(alloc, scope, names.items(), first),
        Stmt::Select { alts } => alternatives(alloc, scope, alts.items(), first),
    }
}

/// Notes the faults of statements.
#[cycle(statements)]
pub fn statements(
    alloc: Global,
    scope: &Scope,
    stmts: &[Stmt],
    first: &mut Option<ClassFault>,
) -> Result<(), AllocError>
    ensures { OnOk result (Notes first.old first.new (statements_faults (scope_of scope.now) (statements_of stmts.now))) }
{
    for stmt in stmts {
        statement(alloc, scope, stmt, first)?;
    }
    Ok(())
}

/// Notes the faults of the alternatives of a select.
#[cycle(statements)]
fn alternatives(
    alloc: Global,
    scope: &Scope,
    alts: &[Alt],
    first: &mut Option<ClassFault>,
) -> Result<(), AllocError>
    ensures { OnOk result (Notes first.old first.new (alternatives_faults (scope_of scope.now) (scope_of scope.now).held (alternatives_of alts.now))) }
{
    let mut held = scope.held();
    for alt in alts {
        condition(scope, held, &alt.guard, first);
        answer(alloc, scope, &alt.answer, first)?;
        statements(alloc, scope, alt.work.items(), first)?;
        held = one_more(held);
    }
    Ok(())
}
