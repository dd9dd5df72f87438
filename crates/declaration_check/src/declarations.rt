//! The check of classes, methods and variables.
ghost use Rattle.std.specs.Prelude.{◌≡◌, ◌==◌, ◌++◌, ◌||◌, [], map, length, take, Some, OnOk};
ghost use Rattle.std.specs.List.{list_any};
ghost use Rattle.pool_syntax.specs.FaultNumbers.{class_twice, limit, local_twice, method_twice, variable_twice};
ghost use Rattle.pool_syntax.specs.Limits.{most_classes, most_locals, most_methods, most_params, most_variables};
ghost use Rattle.pool_syntax.specs.TreeOf.{class_tree, expression_of, method_tree, statements_of};
ghost use Rattle.pool_syntax.specs.Typing.{behind_value, class_scope, expression_faults, fault_if, faults, kind_faults, method_tree_faults, methods_faults, outcome_faults, statements_faults};
ghost use Rattle.pool_syntax.specs.Typing.{too_many, value_needs, vars_faults};
ghost use Rattle.type_check.specs.Before.{names_before};
ghost use Rattle.type_check.specs.PairOf.{pair_of};
ghost use Rattle.type_check.specs.Index.{IsIndex};
ghost use Rattle.type_check.specs.NotedFaults.{Notes};
ghost use Rattle.type_check.specs.CheckerScopes.{scope_of};
ghost use Rattle.declaration_check.specs.TwiceNumber.{twice_number};

use pool_syntax::{ClassDecl, Method, Stmt, Var};
use run_types::{Kind, NameId};
use std::alloc::{AllocError, Global};
use std::collections::HashMap;
use type_check::statements::statements;
use type_check::{
    ClassFault, Classes, Index, Scope, kind_sort, method_places, note, note_misfit, placed,
    places_of, variable_at,
};

/// The largest number of classes of a program.
const MOST_CLASSES: usize = 256;

/// The largest number of methods of a class.
const MOST_METHODS: usize = 64;

/// The largest number of variables of a class.
const MOST_VARIABLES: usize = 64;

/// The largest number of parameters of a method.
const MOST_PARAMS: usize = 8;

/// The largest number of parameters and locals of a method together.
const MOST_LOCALS: usize = 32;

/// The declaration that variables belong to: a class or a method.
#[derive(Clone, Copy)]
pub enum Owner {
    Class,
    Method,
}

fn twice(owner: Owner, token: u32) -> ClassFault
    ensures { pair_of result ≡ (token, twice_number owner) }
{
    match owner {
        Owner::Class => ClassFault::VariableTwice { token },
        Owner::Method => ClassFault::LocalTwice { token },
    }
}

fn note_kind(classes: &Classes, kind: Kind, token: u32, first: &mut Option<ClassFault>)
    ensures { Notes first.old first.new (kind_faults (map class_tree classes.now.list.now) kind token) }
{
    if let Kind::Class(name) = kind {
        if classes.named(name).is_none() {
            note(first, ClassFault::UnknownClass { token });
        }
    }
}

/// Reports whether a variable in `before`, or one in `vars` before the index `place`, has this name.
fn is_twice(before: &Index<Var>, vars: &Index<Var>, place: usize, name: NameId) -> bool
    ensures { result ≡ (list_any (λ v. v.name.0 == name.0) before.now.list.now || list_any (λ v. v.name.0 == name.0) (take place vars.now.list.now)) }
{
    before.is_before(before.list.len(), name) || vars.is_before(place, name)
}

/// Notes a variable whose name is already used, and a declared type whose class does not exist.
#[tactic(auto, using(type_check::proofs::Laws::noted_append))]
fn variable(
    classes: &Classes,
    owner: Owner,
    is_twice: bool,
    var: Var,
    first: &mut Option<ClassFault>,
)
    ensures { Notes first.old first.new (fault_if is_twice var.pos (twice_number owner) ++ kind_faults (map class_tree classes.now.list.now) var.kind var.kind_pos) }
{
    if is_twice {
        note(first, twice(owner, var.pos));
    }
    note_kind(classes, var.kind, var.kind_pos, first);
}

/// Notes the faults of variables that follow those in `before`.
fn variables(
    classes: &Classes,
    owner: Owner,
    before: &Index<Var>,
    vars: &Index<Var>,
    first: &mut Option<ClassFault>,
)
    ensures { Notes first.old first.new (vars_faults (map class_tree classes.now.list.now) (twice_number owner) (names_before (λ v. v.name.0) [] before.now.list.now) vars.now.list.now) }
{
    for (i, var) in vars.list.iter().enumerate() {
        let again = is_twice(before, vars, i, var.name);
        variable(classes, owner, again, *var, first);
    }
}

#[tactic(auto, using(crate::proofs::DeclarationParts::too_many_there, crate::proofs::DeclarationParts::too_many_none))]
/// Notes the first variable after the allowed number, if there is one.
fn note_too_many(most: usize, vars: &[Var], first: &mut Option<ClassFault>)
    ensures { Notes first.old first.new (too_many most vars.now) }
{
    if let Some(var) = variable_at(vars, most) {
        note(first, ClassFault::Limit { token: var.pos });
    }
}

#[tactic(auto, using(crate::proofs::DeclarationParts::too_many_first, crate::proofs::DeclarationParts::too_many_second))]
/// Notes the first parameter or local after the allowed number of both, if there is one.
fn note_too_many_locals(most: usize, params: &[Var], locals: &[Var], first: &mut Option<ClassFault>)
    ensures { Notes first.old first.new (too_many most (params.now ++ locals.now)) }
{
    if most < params.len() {
        note_too_many(most, params, first);
    } else {
        note_too_many(most - params.len(), locals, first);
    }
}

/// Notes the faults of a method's value.
#[tactic(auto, using(type_check::proofs::Laws::noted_append))]
fn value(scope: &Scope, method: &Method, first: &mut Option<ClassFault>)
    ensures { Notes first.old first.new
        (expression_faults (scope_of scope.now) 0 (expression_of method.now.value)
        ++ value_needs (scope_of scope.now) (Some (method_tree method.now)) (expression_of method.now.value)) }
{
    let value = placed(scope, 0, &method.value, first);
    if let Some(kind) = method.result {
        note_misfit(value, kind_sort(scope.classes, kind), first);
    }
}

fn outcome(classes: &Classes, method: &Method, first: &mut Option<ClassFault>)
    ensures { Notes first.old first.new (outcome_faults (map class_tree classes.now.list.now) method.now.result method.now.result_pos) }
{
    if let Some(kind) = method.result {
        note_kind(classes, kind, method.result_pos, first);
    }
}

/// Notes the faults of a method's declarations.
#[tactic(auto, using(type_check::proofs::Laws::noted_append, crate::proofs::DeclarationParts::both_variables))]
fn head(none: &Index<Var>, scope: &Scope, method: &Method, first: &mut Option<ClassFault>)
    requires none { none.now.list.now ≡ [] }
    requires params { scope.now.params.now.list.now ≡ method.now.params }
    requires locals { scope.now.locals.now.list.now ≡ method.now.locals }
    ensures { Notes first.old first.new
        (vars_faults (map class_tree scope.now.classes.now.list.now) local_twice [] (method.now.params ++ method.now.locals)
        ++ (too_many most_params method.now.params ++ (too_many most_locals (method.now.params ++ method.now.locals)
        ++ outcome_faults (map class_tree scope.now.classes.now.list.now) method.now.result method.now.result_pos))) }
{
    let params = scope.params;
    let locals = scope.locals;
    variables(scope.classes, Owner::Method, none, params, first);
    variables(scope.classes, Owner::Method, params, locals, first);
    note_too_many(MOST_PARAMS, params.list, first);
    note_too_many_locals(MOST_LOCALS, params.list, locals.list, first);
    outcome(scope.classes, method, first);
}

/// Notes the faults of post statements of a method.
fn post(
    alloc: Global,
    scope: &Scope,
    stmts: &[Stmt],
    first: &mut Option<ClassFault>,
) -> Result<(), AllocError>
    ensures { OnOk result (Notes first.old first.new (statements_faults (behind_value (scope_of scope.now)) (statements_of stmts.now))) }
{
    let scope = Scope {
        classes: scope.classes,
        own: scope.own,
        methods: scope.methods,
        vars: scope.vars,
        params: scope.params,
        locals: scope.locals,
        in_post: true,
    };
    statements(alloc, &scope, stmts, first)
}

/// Notes the faults inside a method.
#[tactic(auto, using(type_check::proofs::Laws::noted_append))]
fn inside(
    alloc: Global,
    none: &Index<Var>,
    scope: &Scope,
    method: &Method,
    first: &mut Option<ClassFault>,
) -> Result<(), AllocError>
    requires none { none.now.list.now ≡ [] }
    requires params { scope.now.params.now.list.now ≡ method.now.params }
    requires locals { scope.now.locals.now.list.now ≡ method.now.locals }
    ensures { OnOk result (Notes first.old first.new (method_tree_faults (scope_of scope.now) (method_tree method.now))) }
{
    head(none, scope, method, first);
    statements(alloc, scope, method.body.items(), first)?;
    value(scope, method, first);
    post(alloc, scope, method.post.items(), first)
}

/// Notes the faults of a method of the scope's class.
fn method(
    alloc: Global,
    outer: &Scope,
    method: &Method,
    first: &mut Option<ClassFault>,
) -> Result<(), AllocError>
    requires { outer.now.params.now.list.now ≡ [] }
    ensures { OnOk result (Notes first.old first.new (method_tree_faults (scope_of outer.now) (method_tree method.now))) }
{
    let param_places = places_of(alloc, method.params.items())?;
    let local_places = places_of(alloc, method.locals.items())?;
    let params = Index {
        list: method.params.items(),
        places: &param_places,
    };
    let locals = Index {
        list: method.locals.items(),
        places: &local_places,
    };
    let scope = Scope {
        classes: outer.classes,
        own: outer.own,
        methods: outer.methods,
        vars: outer.vars,
        params: &params,
        locals: &locals,
        in_post: outer.in_post,
    };
    inside(alloc, outer.params, &scope, method, first)
}

/// Notes the faults of a method that follows others, which may have its name.
#[tactic(auto, using(type_check::proofs::Laws::noted_append))]
fn next_method(
    alloc: Global,
    scope: &Scope,
    others: (usize, bool),
    next: &Method,
    first: &mut Option<ClassFault>,
) -> Result<(), AllocError>
    requires { scope.now.params.now.list.now ≡ [] }
    ensures { OnOk result (Notes first.old first.new
        (fault_if others.1 next.now.name.pos method_twice
        ++ (fault_if (others.0 == most_methods) next.now.name.pos limit ++ method_tree_faults (scope_of scope.now) (method_tree next.now)))) }
{
    let token = next.name.pos;
    if others.1 {
        note(first, ClassFault::MethodTwice { token });
    }
    if others.0 == MOST_METHODS {
        note(first, ClassFault::Limit { token });
    }
    method(alloc, scope, next, first)
}

/// Notes the faults of the methods of the scope's class.
fn methods(alloc: Global, scope: &Scope, first: &mut Option<ClassFault>) -> Result<(), AllocError>
    requires { scope.now.params.now.list.now ≡ [] }
    ensures { OnOk result (Notes first.old first.new (methods_faults (scope_of scope.now) [] (map method_tree scope.now.own.now.methods))) }
{
    let index = scope.own_methods();
    for (i, next) in index.list.iter().enumerate() {
        let again = index.is_before(i, next.name.name);
        next_method(alloc, scope, (i, again), next, first)?;
    }
    Ok(())
}

/// Notes the faults inside a class, whose methods have the index `by_name`.
#[tactic(auto, using(type_check::proofs::Laws::noted_append))]
fn class(
    alloc: Global,
    classes: &Classes,
    by_name: &HashMap<u32, usize>,
    class: &ClassDecl,
    first: &mut Option<ClassFault>,
) -> Result<(), AllocError>
    requires { IsIndex (λ m. m.name.name.0) by_name.now class.now.methods }
    ensures { OnOk result (Notes first.old first.new
        (vars_faults (map class_tree classes.now.list.now) variable_twice [] class.now.vars ++ (too_many most_variables class.now.vars
        ++ (methods_faults (class_scope (map class_tree classes.now.list.now) (class_tree class.now)) [] (map method_tree class.now.methods)
        ++ statements_faults (class_scope (map class_tree classes.now.list.now) (class_tree class.now)) (statements_of class.now.body))))) }
{
    let no_places = HashMap::new(alloc);
    let none = Index {
        list: &[],
        places: &no_places,
    };
    let var_places = places_of(alloc, class.vars.items())?;
    let vars = Index {
        list: class.vars.items(),
        places: &var_places,
    };
    let scope = Scope {
        classes,
        own: class,
        methods: by_name,
        vars: &vars,
        params: &none,
        locals: &none,
        in_post: false,
    };
    variables(classes, Owner::Class, &none, &vars, first);
    note_too_many(MOST_VARIABLES, vars.list, first);
    methods(alloc, &scope, first)?;
    statements(alloc, &scope, class.body.items(), first)
}

/// Notes the faults of a class that follows others, which may have its name. Its methods have the index `by_name`.
#[tactic(auto, using(type_check::proofs::Laws::noted_append))]
fn next_class(
    alloc: Global,
    classes: &Classes,
    others: (usize, bool),
    by_name: &HashMap<u32, usize>,
    next: &ClassDecl,
    first: &mut Option<ClassFault>,
) -> Result<(), AllocError>
    requires { IsIndex (λ m. m.name.name.0) by_name.now next.now.methods }
    ensures { OnOk result (Notes first.old first.new
        (fault_if others.1 next.now.name.pos class_twice
        ++ (fault_if (others.0 == most_classes) next.now.name.pos limit ++ (vars_faults (map class_tree classes.now.list.now) variable_twice [] next.now.vars ++ (too_many most_variables next.now.vars
        ++ (methods_faults (class_scope (map class_tree classes.now.list.now) (class_tree next.now)) [] (map method_tree next.now.methods)
        ++ statements_faults (class_scope (map class_tree classes.now.list.now) (class_tree next.now)) (statements_of next.now.body))))))) }
{
    let token = next.name.pos;
    if others.1 {
        note(first, ClassFault::ClassTwice { token });
    }
    if others.0 == MOST_CLASSES {
        note(first, ClassFault::Limit { token });
    }
    class(alloc, classes, by_name, next, first)
}

fn each_class(
    alloc: Global,
    classes: &Classes,
    first: &mut Option<ClassFault>,
) -> Result<(), AllocError>
    ensures { OnOk result (Notes first.old first.new (faults (map class_tree classes.now.list.now))) }
{
    let index = classes.index();
    for (i, next) in classes.list.iter().enumerate() {
        let again = index.is_before(i, next.name.name);
        let by_name = &classes.methods[i];
        next_class(alloc, classes, (i, again), by_name, next, first)?;
    }
    Ok(())
}

/// Notes the faults of the classes of a program. The error is out of memory.
pub fn classes(
    alloc: Global,
    list: &[ClassDecl],
    first: &mut Option<ClassFault>,
) -> Result<(), AllocError>
    ensures { OnOk result (Notes first.old first.new (faults (map class_tree list.now))) }
{
    let places = places_of(alloc, list)?;
    let methods = method_places(alloc, list)?;
    let classes = Classes {
        list,
        places: &places,
        methods: &methods,
    };
    each_class(alloc, &classes, first)
}
