//! Objects of compiled code, as contracts see them.

use crate::list::List;
use crate::types::{Serves, Value};

/// An activation record, as contracts see it: a body or a method that is being executed.
/// `method` is the index of the method in its class, and `None` for a body. `at` is the index of the current
/// instruction. `temps` are the values of parameters and locals. `operands` is the operand stack, with its top first.
/// `serves` says for whom the method runs.
#[derive(Drop)]
pub struct Frame {
    pub method: Option<u32>,
    pub at: u32,
    pub temps: List<Value>,
    pub operands: List<Value>,
    pub serves: Serves,
}

/// An object of compiled code, as contracts see it. `class` is the index of its class in the unit. `vars` are the
/// values of its variables. `frames` are its activation records, with the innermost first.
#[derive(Drop)]
pub struct CodeObject {
    pub class: u32,
    pub vars: List<Value>,
    pub frames: List<Frame>,
}
