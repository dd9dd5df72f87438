//! Lookup of variables, classes and methods by name.
ghost use Rattle.std.specs.Prelude.{◌≡◌, length, is_some, if◌then◌else◌};
ghost use Rattle.pool_syntax.specs.TreeOf.{program_of, class_tree, method_tree};
ghost use Rattle.pool_syntax.specs.Classes.{class_of, named_method};
ghost use Rattle.pool_relation.specs.Action.{value_of, method_of};
ghost use Rattle.pool_relation.specs.Reducible.{set_value};
ghost use Rattle.object_acts.specs.ClassesAndMethods.{class_seen, method_seen, methods_of};

use pool_syntax::{ClassDecl, Method, Program};
use run_types::Value;
use stepper_terms::contexts::Binding;

/// The value of the first variable of this name. None if there is none.
pub fn value_of(bindings: &[Binding], name: u32) -> Option<Value>
    ensures { result ≡ value_of bindings.now name }
{
    let mut rest = bindings;
    while let Some((first, others)) = rest.split_first() {
        if first.0 == name {
            return Some(first.1);
        }
        rest = others;
    }
    None
}

/// The first class of this name. None if there is none.
pub fn find_class<'a>(program: &'a Program, name: u32) -> Option<&'a ClassDecl>
    ensures { class_seen result ≡ class_of (program_of program.now) name }
{
    let mut rest = program.classes.items();
    while let Some((first, others)) = rest.split_first() {
        if first.name.name.0 == name {
            return Some(first);
        }
        rest = others;
    }
    None
}

/// The first method of this name in the class.
fn find_named<'a>(class: &'a ClassDecl, name: u32) -> Option<&'a Method>
    ensures { method_seen result ≡ named_method (methods_of class.now) name }
{
    let mut rest = class.methods.items();
    while let Some((first, others)) = rest.split_first() {
        if first.name.name.0 == name {
            return Some(first);
        }
        rest = others;
    }
    None
}

/// The first method of this name in the class, if it has this number of parameters.
pub fn find_method<'a>(
    program: &'a Program,
    class: u32,
    name: u32,
    count: usize,
) -> Option<&'a Method>
    ensures { method_seen result ≡ method_of (program_of program.now) class name count }
{
    let method = find_named(find_class(program, class)?, name)?;
    if method.params.items().len() == count {
        Some(method)
    } else {
        None
    }
}
