//! Changes that a transition makes to one object.
use pool_syntax::{Expr, Method, Stmt};
use run_types::{Args, Error, NameId, Value};

/// A change of one object: the part that replaces its redex, or the error that it meets.
#[derive(Clone, Copy)]
pub enum Change<'a> {
    /// The redex, an expression, becomes this value.
    Becomes(Value),
    /// The redex, a statement, ends.
    Done,
    SetTemp {
        name: u32,
        value: Value,
    },
    SetVariable {
        name: u32,
        value: Value,
    },
    Branch(&'a [Stmt]),
    /// The body of a loop follows, and then the loop.
    Repeat {
        cond: &'a Expr,
        body: &'a [Stmt],
    },
    Unfold {
        cond: &'a Expr,
        body: &'a [Stmt],
    },
    /// An own method begins, with the arguments of the redex.
    Call(&'a Method),
    /// An own method ends with this value.
    Leave(Value),
    /// A method ends that was served for no caller.
    End,
    /// The value of a served method was returned to its caller. Its post statements come next.
    Returned,
    Wait {
        receiver: u32,
        method: NameId,
    },
    Serve {
        method: &'a Method,
        caller: Option<u32>,
        args: Args,
        after: &'a [Stmt],
    },
    Fault(Error),
}
