//! Checks the headings of classes and methods.
ghost use Rattle.std.specs.Prelude.{◌≡◌, ◌<◌, ◌≤◌, ◌&&◌, nat_le, length, Some, None, option_map, IfSome};
ghost use Rattle.std.specs.List.{list_all};
ghost use Rattle.text_scan.specs.Keywords.{is_name};
ghost use Rattle.code_semantics.specs.Step.{class_from, method_named};
ghost use Rattle.code_semantics.specs.Shaped.{IsShaped};
ghost use Rattle.code_typing.specs.Sorts.{declared_at};
ghost use Rattle.code_typing.specs.Verdict.{Header, bad_heading, heading_right, is_first, is_place, kind_exists, methods_right, result_exists};

use crate::classes::{Class, kinds_at, method_place};
use crate::index::Classes;
use crate::texts::is_name;
use code_semantics::{ClassCode, MethodCode, MethodKinds};
use run_types::{Kind, NameId};

/// The most classes of a file.
const MOST_CLASSES: usize = 256;

/// The most methods of a class.
const MOST_METHODS: usize = 64;

/// The most variables of a class.
const MOST_VARIABLES: u32 = 64;

/// The most parameters of a method.
const MOST_PARAMS: u32 = 8;

/// The most parameters and locals of a method together.
const MOST_TEMPS: u32 = 32;

fn kind_exists(classes: &Classes<'_>, kind: Kind) -> bool
    ensures { result ≡ kind_exists classes.now.file.now kind }
{
    match kind {
        Kind::Int | Kind::Bool => true,
        Kind::Class(name) => classes.place(name).is_some(),
    }
}

fn kinds_exist(classes: &Classes<'_>, kinds: &[Kind]) -> bool
    ensures { result ≡ list_all (kind_exists classes.now.file.now) kinds.now }
{
    for kind in kinds {
        if !kind_exists(classes, *kind) {
            return false;
        }
    }
    true
}

fn outcome_exists(classes: &Classes<'_>, outcome: Option<Kind>) -> bool
    ensures { result ≡ result_exists classes.now.file.now outcome }
{
    match outcome {
        None => true,
        Some(kind) => kind_exists(classes, kind),
    }
}

/// Whether the first method of this name is at the place.
fn is_first_method(class: &ClassCode, place: usize, name: NameId) -> bool
    ensures { result ≡ is_first place (method_named (Some class.now) name) }
{
    match method_place(class.methods.items(), name) {
        None => false,
        Some(first) => first == place,
    }
}

/// Whether the heading of the method at the place meets its rules.
fn method_right(
    classes: &Classes<'_>,
    class: &ClassCode,
    place: usize,
    method: &MethodCode,
    kinds: &MethodKinds,
) -> bool
    ensures { result ≡ (is_name classes.now.file.now.unit.names method.now.name.0 && is_first place (method_named (Some class.now) method.now.name) && nat_le method.now.params 8
        && nat_le method.now.temps 32 && nat_le method.now.params method.now.temps && list_all (kind_exists classes.now.file.now) kinds.now.temps
        && result_exists classes.now.file.now kinds.now.result) }
{
    is_name(&classes.file.unit.names, method.name)
        && is_first_method(class, place, method.name)
        && method.params <= MOST_PARAMS
        && method.temps <= MOST_TEMPS
        && method.params <= method.temps
        && kinds_exist(classes, kinds.temps.items())
        && outcome_exists(classes, kinds.result)
}

/// Whether the headings of a class's methods meet their rules.
fn methods_right(classes: &Classes<'_>, class: &Class<'_>) -> bool
    ensures { result ≡ methods_right classes.now.file.now class.now.code.now 0 class.now.code.now.methods class.now.kinds.now.methods }
{
    let kinds = class.kinds.methods.items();
    for (place, method) in class.code.methods.items().iter().enumerate() {
        let kinds = match kinds_at(kinds, place) {
            Some(kinds) => kinds,
            None => return true,
        };
        if !method_right(classes, class.code, place, method, kinds) {
            return false;
        }
    }
    true
}

/// Whether the first class of this name is at the place.
fn is_first_class(classes: &Classes<'_>, place: usize, name: NameId) -> bool
    ensures { result ≡ is_place place (class_from 0 classes.now.file.now.unit.classes name) }
{
    match classes.place(name) {
        None => false,
        Some(first) => first == place,
    }
}

/// Whether the heading of the class at the place meets its rules.
fn heading_right(classes: &Classes<'_>, place: usize) -> bool
    ensures { result ≡ heading_right classes.now.file.now place (declared_at classes.now.file.now place) }
{
    let Some(class) = classes.class(place) else {
        return true;
    };
    is_name(&classes.file.unit.names, class.code.name)
        && is_first_class(classes, place, class.code.name)
        && place < MOST_CLASSES
        && class.code.vars <= MOST_VARIABLES
        && class.code.methods.items().len() <= MOST_METHODS
        && kinds_exist(classes, class.kinds.vars.items())
        && methods_right(classes, &class)
}

/// The number, from 0, of the first class whose heading breaks a rule; none if no heading does.
pub fn bad_heading(classes: &Classes<'_>) -> Option<u32>
    requires { IsShaped classes.now.file.now }
    ensures { option_map Header result ≡ bad_heading classes.now.file.now (length classes.now.file.now.unit.classes) 0 }
{
    for place in 0..classes.file.unit.classes.items().len() {
        if !heading_right(classes, place) {
            return Some(place as u32);
        }
    }
    None
}
