//! The content of a body or of a method under way.
use run_types::NameId;
use stepper_terms::contexts::{ExpressionContext, Operand, Ready, Segment, StatementContext, Task};

/// The content of a body or of a method under way, with the statements after it.
#[derive(Clone, Copy)]
pub enum Inner<'b, 'a> {
    /// A statement or a value with the redex in it.
    Running {
        slot: &'b StatementContext<'a>,
        places: &'b [ExpressionContext<'a>],
        redex: &'b Ready,
        rest: &'b [Segment<'a>],
    },
    /// A statement or a value with a method under way in it.
    Within {
        slot: &'b StatementContext<'a>,
        places: &'b [ExpressionContext<'a>],
        method: NameId,
        rest: &'b [Segment<'a>],
    },
    /// The statement that is the redex.
    Next {
        task: &'b Task<'a>,
        rest: &'b [Segment<'a>],
    },
    /// A method that is served.
    Serving {
        method: NameId,
        rest: &'b [Segment<'a>],
    },
    /// The value of the method.
    Value(Operand),
    /// The end.
    Over,
}
