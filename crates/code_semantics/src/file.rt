//! A unit with its declared kinds, as an object code file holds it.
use crate::unit::Unit;
use run_types::{Kind, List};

/// The content of an object code file: a unit, and the declared kinds of its variables, parameters, locals and results.
#[derive(Drop)]
pub struct UnitFile {
    pub unit: Unit,
    pub kinds: Kinds,
}

/// The kinds of each class, in the order of the unit's classes.
#[derive(Drop)]
pub struct Kinds {
    pub classes: List<ClassKinds>,
}

/// The kinds of a class's variables, in the order of their numbers, and of its methods, in the order of the unit.
#[derive(Drop)]
pub struct ClassKinds {
    pub vars: List<Kind>,
    pub methods: List<MethodKinds>,
}

/// The kinds of a method's parameters and then its locals, and the kind of its result, if it has one.
#[derive(Drop)]
pub struct MethodKinds {
    pub temps: List<Kind>,
    pub result: Option<Kind>,
}
