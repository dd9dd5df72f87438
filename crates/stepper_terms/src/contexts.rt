//! The work of an object, as a stack of evaluation contexts around its redex. Program text is borrowed from the
//! program.
use pool_syntax::{Alt, Expr, Named, Stmt};
use run_types::{NameId, Op, Value};

/// A variable with its value.
pub type Binding = (u32, Value);

/// A value, with the position of its literal in the text; the position is 0 for an evaluated value.
#[derive(Clone, Copy)]
pub struct Operand {
    pub value: Value,
    pub pos: u32,
}

/// An alternative of a select whose guard is evaluated.
#[derive(Clone, Copy)]
pub struct Guarded<'a> {
    pub guard: Operand,
    pub alt: &'a Alt,
}

/// An expression with a hole, where one part is under evaluation. The parts before the hole are evaluated.
#[derive(Drop)]
pub enum ExpressionContext<'a> {
    Prefix {
        op: Op,
        pos: u32,
    },
    Left {
        op: Op,
        right: &'a Expr,
        pos: u32,
    },
    Right {
        op: Op,
        left: Operand,
        pos: u32,
    },
    CallArgument {
        method: NameId,
        done: Vec<Operand>,
        rest: &'a [Expr],
        pos: u32,
    },
    Destination {
        method: NameId,
        args: &'a [Expr],
        pos: u32,
    },
    SendArgument {
        to: Operand,
        method: NameId,
        done: Vec<Operand>,
        rest: &'a [Expr],
        pos: u32,
    },
}

/// A statement with a hole, where one expression is under evaluation; or the value of a method.
#[derive(Drop)]
pub enum StatementContext<'a> {
    Assign {
        target: Named,
    },
    Write,
    Do,
    Destination {
        method: Named,
        args: &'a [Expr],
    },
    Argument {
        to: Operand,
        method: Named,
        done: Vec<Operand>,
        rest: &'a [Expr],
    },
    If {
        yes: &'a [Stmt],
        no: &'a [Stmt],
    },
    Loop {
        cond: &'a Expr,
        body: &'a [Stmt],
    },
    Guard {
        done: Vec<Guarded<'a>>,
        at: &'a Alt,
        rest: &'a [Alt],
    },
    Value,
}

/// An expression that is the redex.
#[derive(Drop)]
pub enum Ready {
    Me {
        pos: u32,
    },
    Variable {
        name: NameId,
        pos: u32,
    },
    Create {
        class: NameId,
        pos: u32,
    },
    Prefix {
        op: Op,
        arg: Operand,
        pos: u32,
    },
    Infix {
        op: Op,
        left: Operand,
        right: Operand,
        pos: u32,
    },
    Call {
        method: NameId,
        args: Vec<Operand>,
        pos: u32,
    },
    Send {
        to: Operand,
        method: NameId,
        args: Vec<Operand>,
        pos: u32,
    },
    Wait {
        receiver: u32,
        method: NameId,
    },
}

/// A statement that is the redex.
#[derive(Drop)]
pub enum Task<'a> {
    Assign {
        target: Named,
        value: Operand,
    },
    Write {
        value: Operand,
    },
    WriteText {
        text: NameId,
    },
    Do {
        value: Operand,
    },
    Async {
        to: Operand,
        method: Named,
        args: Vec<Operand>,
    },
    If {
        cond: Operand,
        yes: &'a [Stmt],
        no: &'a [Stmt],
    },
    /// The `if` of an unfolded loop, whose condition is evaluated.
    Loop {
        value: Operand,
        cond: &'a Expr,
        body: &'a [Stmt],
    },
    While {
        cond: &'a Expr,
        body: &'a [Stmt],
    },
    Answer {
        names: &'a [Named],
    },
    Select {
        guards: Vec<Guarded<'a>>,
    },
}

/// A part of the statements that follow.
#[derive(Drop)]
pub enum Segment<'a> {
    Rest(&'a [Stmt]),
    /// A loop that follows its body.
    Again { cond: &'a Expr, body: &'a [Stmt] },
}

/// The redex of the body or of the innermost method under way, with its surroundings and the statements after it.
#[derive(Drop)]
pub enum Focus<'a> {
    Expression {
        redex: Ready,
        places: Vec<ExpressionContext<'a>>,
        slot: StatementContext<'a>,
        rest: Vec<Segment<'a>>,
    },
    Statement {
        task: Task<'a>,
        rest: Vec<Segment<'a>>,
    },
    /// No statement is left, and the value is evaluated. A caller waits for it.
    Value {
        value: Operand,
    },
    Over,
}

/// The place from which a method under way was called.
#[derive(Drop)]
pub enum SuspendedCall<'a> {
    /// In an expression, as an own call.
    Expression {
        places: Vec<ExpressionContext<'a>>,
        slot: StatementContext<'a>,
        rest: Vec<Segment<'a>>,
    },
    /// As a statement, for a caller or for no one.
    Statement {
        caller: Option<u32>,
        rest: Vec<Segment<'a>>,
    },
}

/// The progress of a method under way.
#[derive(Clone, Copy)]
pub enum Stage<'a> {
    /// The statements or the value are under way. The post statements come after the value.
    Body { value: &'a Expr, post: &'a [Stmt] },
    /// The post statements are under way, for no caller. The method holds its value.
    Post { value: Operand },
}

/// A method under way.
#[derive(Drop)]
pub struct Activation<'a> {
    pub outer: SuspendedCall<'a>,
    pub method: NameId,
    pub temps: Vec<Binding>,
    pub stage: Stage<'a>,
}

/// All work of an object: the methods under way, the innermost last, and the focus.
#[derive(Drop)]
pub struct Continuation<'a> {
    pub calls: Vec<Activation<'a>>,
    pub next: Focus<'a>,
}
