//! The scope of a code.
use crate::classes::Class;
use crate::index::Classes;
use code_typing::Sort;
use run_types::Kind;

/// The scope of a code: its file, its class, the kinds of its
/// parameters and locals, and the sort that its value must fit. A body has no value.
#[derive(Clone, Copy)]
pub struct Scope<'a> {
    pub classes: &'a Classes<'a>,
    pub class: &'a Class<'a>,
    pub temps: &'a [Kind],
    pub value: Option<Sort>,
}
